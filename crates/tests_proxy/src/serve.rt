//! Tests of served links over sockets of this machine, with ample and with too little memory.
mod peers;
mod probes;
mod scarce_serving;
mod scarce_starts;
mod scarce_waits;
mod serving;
