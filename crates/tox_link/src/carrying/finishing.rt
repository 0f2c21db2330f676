//! The end of a link: it hangs up, and empties the ring so that the reader's thread can end.
ghost use Rattle.std.specs.Prelude.{◌≡◌, List, [], ◌∷◌, ◌++◌, false, IfOk, OnErr, MatchBool};
ghost use Rattle.rtrb.specs.Ring.{received, SameConsumer};
ghost use Rattle.tox_time.specs.declared.streams.ending.Ending.TheVariants.{Reset};
ghost use Rattle.tox_link.specs.declared.ring.message.Message.{Message as OneMessage};
ghost use Rattle.tox_link.specs.declared.ring.message.Message.TheVariants.{End as EndOf};
ghost use Rattle.tox_link.specs.declared.ring.message.ReadEnd.{ReadEnd as OneEnd};
ghost use Rattle.tox_link.specs.Hangups.{with_call};

use crate::carrying::writer_side::WriterSide;
use crate::hangup::Hangup;
use crate::link_fault::LinkFault;
use crate::ring::inbox::Inbox;
use crate::ring::message::Message;
use std::sync::Wait;
use tox_time::{Ending, Gate};

/// Ends the connections: as the link ended, or by a reset after a fault.
pub(crate) fn hang_up<H: Hangup>(
    hangup: &mut H,
    driven: &Result<Ending, LinkFault>,
    side: &WriterSide<'_>,
)
    ensures ok { IfOk driven.now (λ ending. H.calls hangup.new
        ≡ with_call (H.calls hangup.old) ending side.now.ended) }
    ensures err { OnErr driven.now (H.calls hangup.new
        ≡ with_call (H.calls hangup.old) (Reset side.now.core.latest) false) }
{
    match driven {
        Ok(ending) => hangup.hang_up(*ending, side.ended),
        Err(_) => hangup.hang_up(Ending::Reset(side.core.latest()), false),
    }
}

/// Drops what still comes, up to the source's end if that has not come.
pub(crate) fn drain<R: Wait, G: Gate>(rt: &R, inbox: &mut Inbox, ended: bool, gate: &G)
    ensures ring { SameConsumer inbox.old.receiver inbox.new.receiver }
    ensures received { (more : List OneMessage)
        × (received inbox.new.receiver ≡ received inbox.old.receiver ++ more) }
    ensures up_to_end { MatchBool ended
        (received inbox.new.receiver ≡ received inbox.old.receiver)
        ((before : List OneMessage) × (end : OneEnd)
        × (received inbox.new.receiver ≡ before ++ EndOf end ∷ [])) }
{
    if ended {
        return;
    }
    for _ in rt.forever() {
        match inbox.pop(gate) {
            Ok(Message::End(_)) => return,
            Ok(Message::Piece(_)) => {}
            Err(idle) => inbox.wait(rt, idle),
        }
    }
    unreachable!()
}
