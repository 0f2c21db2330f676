//! Sends the lines of serving to the thread that writes them. Each is made whole before it is sent.
use crate::link::course::{Course, Courses};
use crate::link::end::LinkEnd;
use crate::output::LineForm;
use crate::output::channel::LineChannel;
use crate::output::json_lines::{link_json, listening_json, total_json};
use crate::output::open_line::{OpenStream, applied_names, open_json, open_text};
use crate::output::serve_lines::{link_text, listening_text, total_text};
use crate::proxy::listening::Listening;
use crate::run::ServeRun;
use std::alloc::AllocError;
use std::net::TcpStream;
use std::sync::Wait;
use tox_link::Book;
use tox_words::Drawing;

/// What stands for the address of a client that has gone.
const GONE: &str = "-";

/// Prints where each proxy listens, in order. Waits until there is room.
pub(crate) fn print_listening<R: Wait>(rt: &R, run: &ServeRun<'_>, listening: &[Listening<'_>]) {
    for bound in listening {
        let proxy = bound.proxy;
        let line = match run.options.form {
            LineForm::Words => listening_text(&proxy.name, &bound.address),
            LineForm::Json => listening_json(&proxy.name, &bound.address),
        };
        if let Some(line) = line {
            run.lines.send_in_turn(rt, line.as_slice());
        }
    }
}

/// With the option `verbose`: prints what each stream of a numbered link meets, once its upstream is reached. The lines are dropped
/// if there is no room for them.
pub(crate) fn print_open<R: Wait>(
    rt: &R,
    run: &ServeRun<'_>,
    name: &str,
    number: u64,
    client: &TcpStream,
    courses: &Courses,
) {
    if !run.options.verbose {
        return;
    }
    let Ok(address) = client_text(run, client) else {
        return;
    };
    print_course(rt, run, name, number, &address, &courses.up);
    print_course(rt, run, name, number, &address, &courses.down);
}

/// The address of a client.
fn client_text(run: &ServeRun<'_>, client: &TcpStream) -> Result<String, AllocError> {
    match client.peer_addr() {
        Ok(address) => format!(in run.alloc; "{address}"),
        Err(_) => GONE.to_string(run.alloc),
    }
}

/// Prints what one stream of a link meets.
fn print_course<R: Wait>(
    rt: &R,
    run: &ServeRun<'_>,
    proxy: &str,
    number: u64,
    client: &str,
    course: &Course,
) {
    let stream = course.stream;
    let chain = run.script.chain(proxy, number, stream);
    let drawing = Drawing::new(chain.lanes(), &course.words);
    let names = run.script.names(proxy, number, stream);
    let toxics = applied_names(chain.entries(), names, &drawing);
    let opened = OpenStream {
        proxy,
        number,
        stream,
        client,
        toxics: &toxics,
    };
    let line = match run.options.form {
        LineForm::Words => open_text(&opened),
        LineForm::Json => open_json(&opened),
    };
    if let Some(line) = line {
        run.lines.send(rt, line.as_slice());
    }
}

/// Prints how a link of a proxy ended. The line is dropped if there is no room for it.
pub(crate) fn print_link<R: Wait>(rt: &R, run: &ServeRun<'_>, name: &str, end: &LinkEnd) {
    let line = match run.options.form {
        LineForm::Words => link_text(name, end),
        LineForm::Json => link_json(name, end),
    };
    if let Some(line) = line {
        run.lines.send(rt, line.as_slice());
    }
}

/// Prints the totals of a proxy's book. Waits until there is room.
pub(crate) fn print_total<R: Wait>(rt: &R, run: &ServeRun<'_>, name: &str, book: &Book) {
    let line = match run.options.form {
        LineForm::Words => total_text(name, book),
        LineForm::Json => total_json(name, book),
    };
    if let Some(line) = line {
        run.lines.send_in_turn(rt, line.as_slice());
    }
}
