//! Scripts are read, copied and printed.
use crate::asserting::{let_go, must, reads};
use crate::rows::{job_text, script};
use script_lang::print;
use std::process::Abort;

/// Each kind of atom, as a rule is printed.
const HEAD: &str =
    "job \"a b\" 10 path /P/b path /Q mutex a mutex b lines /P/a 3 9 lines /P/a 9 12";

/// Each form of a command, as it is printed, with semicolons between.
const COMMANDS: &str =
    "create project /P; create folder /P/d; create file /P/a \"x y\"; delete /P/d; \
    write /P/a \"\\xff\\n\\t\\r\\\"\\\\\"; touch /P/a; derived /P/a on; derived /P/a off; move /P/a /P/b; \
    copy /P/b \"/P/c d\"; open /P; close /P; describe /P {}; mark /P/b t; \
    mark /P/b t n int -1 b bool true \"\" text \"u v\" c bool false; attr /P/b 1 n int 2147483647; attr /P/b 1 n none; \
    unmark /P/b 18446744073709551615; clearmarks / t 0; clearmarks / \"\" 1; partner git; \
    sync /P/b git \"a#A\\x00\u{e9}\"; nosync /P/b git; flush / git 2; show /P; cat /P/b; tree /; digest /; batch; endbatch; \
    checkpoint; begin path /P; trybegin null; end lines /P/b 0 4294967295; build full; \
    build auto /P; build incr /P; build clean; save full; save snapshot";

#[test]
fn what_is_printed_is_what_was_read(rt: HostRuntime) {
    let lines = must(&rt, COMMANDS.replace(rt.alloc(), "; ", "\n"));
    let text = job_text(&rt, HEAD, lines.as_str());
    let read = script(&rt, text.as_str());
    let copy = must(&rt, read.copy());
    let_go(read);
    let printed = must(&rt, print(rt.alloc(), &copy));
    let_go(copy);
    reads(&rt, "printed", printed.as_slice(), text.as_str());
}
