// What the programs say on standard error.
use std::io;

// What keeps a program from going on: its input cannot be opened, or read to its end, or the lines cannot be written.
#[derive(Clone, Copy)]
pub enum Trouble {
    Unopened(io::Error),
    Unread(io::Error),
    Unwritten(io::Error),
}

// What cannot be said there is lost.
fn say(rt: &HostRuntime, text: &[u8]) {
    let _ = rt.stderr().write_all(text);
}

// How the program is called.
pub fn usage(rt: &HostRuntime, program: &[u8]) {
    say(rt, b"usage: ");
    say(rt, program);
    say(
        rt,
        b" [FILE] (without FILE it reads standard input, a file or a pipe)\n",
    );
}

// The error in the system's words, without its number, which std puts behind them.
fn say_reason(rt: &HostRuntime, error: io::Error) {
    match format!(in rt.alloc(); "{error}") {
        Ok(text) => {
            let words = text.as_str();
            match words.split_once(" (os error ") {
                Some((reason, _)) => say(rt, reason.as_bytes()),
                None => say(rt, words.as_bytes()),
            }
        }
        Err(_) => {
            let _ = rt.eprint(error);
        }
    }
}

// What keeps the program from going on with the input of that name, and the system's reason. The program's name is handed in: it is
// said once, where a program ends.
pub fn report(rt: &HostRuntime, program: &[u8], name: &[u8], trouble: Trouble) {
    let (doing, name, error) = match trouble {
        Trouble::Unopened(error) => ("open", name, error),
        Trouble::Unread(error) => ("read", name, error),
        Trouble::Unwritten(error) => ("write", "standard output".as_bytes(), error),
    };
    say(rt, program);
    say(rt, b": cannot ");
    say(rt, doing.as_bytes());
    say(rt, b" ");
    say(rt, name);
    say(rt, b": ");
    say_reason(rt, error);
    say(rt, b"\n");
}
