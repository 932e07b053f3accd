//! Rows, whose replies were worked by hand.
use crate::asserting::let_go;
use crate::playing::{play, play_all, start};

/// What is refused without the services, without the rule of the root, with a null rule over another, with both, and while
/// another pass has them, in the order of the causes. No project is /X, /C is closed, and /E has no commands.
const REFUSALS: &str = r#"0|enter; batch; project /P; project /E; project /C; close /C|id 1; ok
0|describe /P {"commands":[{"builder":"copy","inputs":["src"],"output":"bin"},{"builder":"zz","inputs":["src"],"output":"out"}]}|ok
1|checkin settled; handed /X 9 10; commit / /b*63=1; clean /X 9; checkout build 10 /X|refused 33 none; refused 33 none; refused 33 none; refused 33 none; refused 15 null
1|begin; checkout build 6; end; begin /P; begin; checkout build 10 /P|ok; refused 15 null; ok; ok; ok; refused 15 path /P
1|end; end /P; begin /; begin|ok
1|checkin cleaned; handed /P 0 10; commit; clean /P 0|refused 33 none
1|checkout build 15 /X; checkout build 9 /C; checkout build 10 /E|refused 10 /X; refused 14 /C; ok, /E
1|checkout build 10 /X; checkout build 10; commit /; commit|refused 32 1; refused 32 1; refused 37
1|handed /X 9 10; clean /X 9; handed /C 9 10; clean /C 9|refused 10 /X; refused 10 /X; refused 14 /C
1|handed /P 2 10; clean /P 65535; handed /E 0 10; clean /E 0|refused 36 2; refused 36 2; refused 36 0
1|handed /P 1 10; clean /P 1; end; end /; commit /|refused 35 zz; refused 35 zz; ok; ok; refused 37
1|checkout build 10 /X; handed /X 9 10; clean /X 9; leave; take|refused 15 null; refused 15 null; refused 15 null; refused 42
0|handed /X 9 10; commit /; clean /X 9; checkin no-memory|refused 33 1
0|begin /; checkout build 6 /X; checkout build 10|ok; refused 32 1
0|handed /P 0 10; commit; clean /P 0; checkin settled; end /|refused 33 1; refused 33 1; refused 33 1; refused 33 1; ok
1|begin /; begin; handed /P 0 10|ok; ok; none, all 10 of /P/src in /P/bin
1|commit / /b*63=1; commit /b*63=1; end; end /; begin /P|refused 34 /; refused 2; ok
1|commit /; handed /X 9 10; clean /X 9; checkout build 10; end /P|refused 15 path /P; refused 15 path /P; refused 15 path /P; refused 15 path /P; ok
1|commit /b*63=1; checkin failed /P 0; checkin failed /P 0|refused 15 null; ok; refused 33 none
0|begin /; checkout build 6; checkin settled|ok; ok, /E, /P copy zz; ok
0|checkout build 9 /P; checkin unsettled /P /E; checkout build 15 /E; checkin refused 34|ok, /P copy zz; ok; ok, /E; ok
0|checkout build 10 /E; checkin cleaned; checkout build 10 /E; checkin no-memory|ok, /E; ok; ok, /E; ok"#;

/// A command is under way until the services are given back, a command is cleaned, or its project is deleted, moved, closed or
/// described; whatever is done to other projects, to what lies in its own, or is refused. What is handed later takes its place.
const UNDER_WAY: &str = r#"0|batch; project /P; project /Q; begin /|ok
0|describe /P {"commands":[{"builder":"copy","inputs":["src"],"output":"bin"}]}|ok
0|checkout build 10; handed /P 0 10|ok, /P copy, /Q; none, all 10 of /P/src in /P/bin
0|describe /Q {}; close /Q; open /Q; move /Q /R; delete /R; copy /P /Q; forget /P; open /P; folder /P/src; delete /P/src|ok
0|describe /P {; handed /P 1 10; clean /P 1; commit /a=1|refused 25 not-json; refused 36 1; refused 36 1; touched 1 problems 0
0|describe /P {"commands":[{"builder":"copy","inputs":["src"],"output":"bin"}]}; commit /a=2|ok; refused 37
0|handed /P 0 10; close /P; commit|delta, /P * DESCRIPTION, since 10 /P/bin/a=1 of /P/src in /P/bin; ok; refused 37
0|open /P; commit; handed /P 0 10|ok; refused 37; delta, /P * DESCRIPTION, since 10 /P/bin/a=1 of /P/src in /P/bin
0|clean /Q 0; commit; handed /P 0 10|ok; refused 37; delta, /P * DESCRIPTION, since 10 /P/bin/a=1 of /P/src in /P/bin
0|handed /Q 0 10; commit /b=1; commit /b=1|none, all 10 of /Q/src in /Q/bin; touched 1 problems 0; touched 0 problems 0
0|delete /P/bin; handed /P 0 10|ok; delta, /P * DESCRIPTION, /P/bin -, /P/bin/a -, since 10 of /P/src in /P/bin
0|clean /P 0; commit; handed /P 0 10|ok; refused 37; none, all 10 of /P/src in /P/bin
0|checkin settled; checkout build 10 /P; commit; handed /P 0 10|ok; ok, /P copy; refused 37; none, all 10 of /P/src in /P/bin
0|move /P /S; commit; handed /S 0 10; commit|ok; refused 37; none, all 10 of /S/src in /S/bin; touched 0 problems 0
0|delete /S; commit|ok; refused 37"#;

/// No delta at first; then what changed in the project and in /Q, to which it refers, since the command was built last: not in
/// /R. None of the kinds 6 and 15, nor where the command or the references are others, nor after a description with fewer
/// commands, a forget, a move or a delete. The files are those of the inputs and the output.
const HANDED: &str =
    r#"0|batch; project /P; project /Q; project /R; folder /P/src; folder /Q/src; begin /|ok
0|file /P/src/a 1; file /P/x y; file /Q/src/b 2; file /Q/x y|ok
0|describe /P {"commands":[{"builder":"copy","inputs":["src","/Q/src"],"output":"bin"}],"references":["Q"]}|ok
0|checkout build 10; handed /P 0 10|ok, /Q, /P copy, /R; none, all 10 /P/src/a=1 /Q/src/b=2 of /P/src of /Q/src in /P/bin
0|commit /a=1 /b=2; handed /P 0 10|touched 2 problems 0; delta, since 10 /P/bin/a=1 /P/bin/b=2 /P/src/a=1 /Q/src/b=2 of /P/src of /Q/src in /P/bin
0|write /P/bin/b 3; write /Q/x z; file /R/f 1; delete /P/src/a; close /R|ok
0|handed /P 0 9|delta, /P *, /P/bin *, /P/bin/b * CONTENT, /P/src *, /P/src/a -, /Q *, /Q/x * CONTENT, since 9 /P/bin/a=1 /P/bin/b=3 /Q/src/b=2 of /P/src of /Q/src in /P/bin
0|handed /P 0 6|none, all 6 /P/bin/a=1 /P/bin/b=3 /Q/src/b=2 of /P/src of /Q/src in /P/bin
0|handed /P 0 15|none, all 15 /P/bin/a=1 /P/bin/b=3 /Q/src/b=2 of /P/src of /Q/src in /P/bin
0|handed /P 0 10|delta, /P *, /P/bin *, /P/bin/b * CONTENT, /P/src *, /P/src/a -, /Q *, /Q/x * CONTENT, since 10 /P/bin/a=1 /P/bin/b=3 /Q/src/b=2 of /P/src of /Q/src in /P/bin
0|commit /a /b; delete /Q/src/b; open /R|touched 2 problems 0; ok
0|handed /P 0 10|delta, /Q *, /Q/src *, /Q/src/b -, since 10 of /P/src of /Q/src in /P/bin
0|describe /P {"references":["Q","R"],"commands":[{"builder":"copy","inputs":["src","/Q/src"],"output":"bin"}]}|ok
0|handed /P 0 10|none, all 10 of /P/src of /Q/src in /P/bin
0|describe /P { "references": ["Q"], "commands": [{"output": "bin", "builder": "copy", "inputs": ["src", "/Q/src"]}] }; close /P; open /P|ok
0|handed /P 0 10|delta, /P * DESCRIPTION, /Q *, /Q/src *, /Q/src/b -, since 10 of /P/src of /Q/src in /P/bin
0|describe /P {"references":["Q"],"commands":[{"builder":"concat","inputs":["src","/Q/src"],"output":"bin"}]}|ok
0|handed /P 0 10; commit|none, all 10 of /P/src of /Q/src in /P/bin; touched 0 problems 0
0|describe /P {"references":["Q"],"commands":[{"builder":"concat","inputs":["src"],"output":"bin"}]}|ok
0|handed /P 0 10; commit|none, all 10 of /P/src in /P/bin; touched 0 problems 0
0|describe /P {"references":["Q"],"commands":[{"builder":"concat","inputs":["src"],"output":"out"}]}|ok
0|handed /P 0 10; commit; describe /P {}; handed /P 0 10|none, all 10 of /P/src in /P/out; touched 0 problems 0; ok; refused 36 0
0|describe /P {"references":["Q"],"commands":[{"builder":"concat","inputs":["src"],"output":"out"}]}|ok
0|handed /P 0 10; commit; forget /P|none, all 10 of /P/src in /P/out; touched 0 problems 0; ok
0|handed /P 0 10; commit; move /P /S; move /S /P|none, all 10 of /P/src in /P/out; touched 0 problems 0; ok
0|handed /P 0 10; commit; delete /P; project /P|none, all 10 of /P/src in /P/out; touched 0 problems 0; ok
0|describe /P {"references":["Q"],"commands":[{"builder":"concat","inputs":["src"],"output":"out"}]}|ok
0|handed /P 0 10|none, all 10 of /P/src in /P/out"#;

/// Files put, changed, put again and removed, with the numbers that they draw; folders that are made and that go; files in
/// the way of an output and above one; edits that are bad, with the least path; and paths at their limits.
const FILES: &str = r#"0|batch; project /P; begin /|ok
0|describe /P {"commands":[{"builder":"copy","inputs":["src"],"output":"bin"},{"builder":"copy","inputs":["src"],"output":"o/p"},{"builder":"copy","inputs":["src"],"output":"b"}]}|ok
0|checkout build 6; handed /P 0 6|ok, /P copy copy copy; none, all 6 of /P/src in /P/bin
0|commit /e/f=1 /a=2; show /P/bin|touched 2 problems 0; folder node 3 stamp 0 len 0 derived off open off desc 0 marks 0 syncs 0
0|show /P/bin/a|file node 4 stamp 3 len 1 derived off open off desc 0 marks 0 syncs 0
0|show /P/bin/e|folder node 5 stamp 0 len 0 derived off open off desc 0 marks 0 syncs 0
0|show /P/bin/e/f|file node 6 stamp 4 len 1 derived off open off desc 0 marks 0 syncs 0
0|commit /a=2 /e/f=34; commit /a=2 /e/f=34; commit; commit /n|touched 1 problems 0; touched 0 problems 0
0|handed /P 0 10|delta, since 10 /P/bin/a=2 /P/bin/e/f=34 of /P/src in /P/bin
0|show /P/bin/a|file node 4 stamp 3 len 1 derived off open off desc 0 marks 0 syncs 0
0|show /P/bin/e/f|file node 6 stamp 5 len 2 derived off open off desc 0 marks 0 syncs 0
0|commit /e/f; show /P/bin/e; folder /P/bin/h; folder /P/bin/h/i; folder /P/bin/k|touched 1 problems 0; refused 10 /P/bin/e; ok
0|commit /k=; show /P/bin/h|touched 1 problems 0; refused 10 /P/bin/h
0|show /P/bin/k|file node 10 stamp 6 len 0 derived off open off desc 0 marks 0 syncs 0
0|commit /z /z /b=1 /b=2; commit /c/d=1 /e/x=1 /e=1 /c=1 /z /z; commit /a/b=1|refused 34 /b; refused 34 /c; refused 34 /a
0|commit /b /a=9 /b / !/P=m; handed /P 0 10|refused 34 /; delta, since 10 /P/bin/a=2 /P/bin/k="" of /P/src in /P/bin
0|commit /a /a/b=1; commit /a=1; commit /a=1 /a/b; commit /a /k|touched 2 problems 0; refused 34 /a; touched 2 problems 0
0|show /P/bin; delete /P/bin; file /P/bin w|folder node 3 stamp 0 len 0 derived off open off desc 0 marks 0 syncs 0; ok
0|commit; commit /a=1; handed /P 0 10|touched 0 problems 0; touched 2 problems 0; delta, since 10 /P/bin/a=1 of /P/src in /P/bin
0|file /P/o w; handed /P 1 6; commit /b*62=1; commit /b*62|ok; none, all 6 of /P/src in /P/o/p; refused 2; touched 0 problems 0
0|commit; commit /b*61=1; commit /b*61|touched 0 problems 0; touched 2 problems 0; touched 1 problems 0
0|clean /P 0; clean /P 1; show /P/bin/a|ok; ok; refused 10 /P/bin/a
0|handed /P 2 6; commit /bbbbbbbbbbbbbbbbbbbbbbbbbbbbbbbbbbbbbbbbbbbbbbbbbbbbbbbbbbbbbbbbb*62=1|none, all 6 of /P/src in /P/b; touched 1 problems 0
0|handed /P 0 6; commit /bbbbbbbbbbbbbbbbbbbbbbbbbbbbbbbbbbbbbbbbbbbbbbbbbbbbbbbbbbbbbbbbb*62=1|none, all 6 of /P/src in /P/bin; refused 3
0|commit /bbbbbbbbbbbbbbbbbbbbbbbbbbbbbbbbbbbbbbbbbbbbbbbbbbbbbbbbbbbbbbbbb*62=1 /b*63=1; commit /bbbbbbbbbbbbbbbbbbbbbbbbbbbbbbbbbbbbbbbbbbbbbbbbbbbbbbbbbbbbbbbbb*62|refused 2; touched 0 problems 0"#;

/// Problems with new ids; the same list again, which stays; in another order, and after one of them went; those of another
/// command, which stay; a refused commit; a command that is cleaned, and one that its project's description has no more.
const PROBLEMS: &str = r#"0|batch; project /P; begin /|ok
0|describe /P {"commands":[{"builder":"copy","inputs":["src"],"output":"bin"},{"builder":"copy","inputs":["src"],"output":"out"}]}|ok
0|checkout build 6; handed /P 0 6|ok, /P copy copy; none, all 6 of /P/src in /P/bin
0|commit !/P/a=m !/P/b=n; commit !/P/a=m !/P/b=n|touched 0 problems 2
0|show /P|project node 2 stamp 0 len 0 derived off open on desc 2 marks 2 syncs 0, mark 1 org.eclipse.core.resources.problemmarker command int 0 lineNumber int 1 location text /P/a message text m severity int 2, mark 2 org.eclipse.core.resources.problemmarker command int 0 lineNumber int 1 location text /P/b message text n severity int 2
0|commit !/P/b=n !/P/a=m; show /P|touched 0 problems 2; project node 2 stamp 0 len 0 derived off open on desc 2 marks 2 syncs 0, mark 3 org.eclipse.core.resources.problemmarker command int 0 lineNumber int 1 location text /P/b message text n severity int 2, mark 4 org.eclipse.core.resources.problemmarker command int 0 lineNumber int 1 location text /P/a message text m severity int 2
0|unmark /P 3; commit !/P/b=n !/P/a=m; show /P|ok; touched 0 problems 2; project node 2 stamp 0 len 0 derived off open on desc 2 marks 2 syncs 0, mark 5 org.eclipse.core.resources.problemmarker command int 0 lineNumber int 1 location text /P/b message text n severity int 2, mark 6 org.eclipse.core.resources.problemmarker command int 0 lineNumber int 1 location text /P/a message text m severity int 2
0|handed /P 1 6; commit !/P/a=m|none, all 6 of /P/src in /P/out; touched 0 problems 1
0|handed /P 0 10|delta, /P * MARKERS, marker 7 + org.eclipse.core.resources.problemmarker, since 10 of /P/src in /P/bin
0|commit !/P/a=m /; commit !/P/a=m; show /P|refused 34 /; touched 0 problems 1; project node 2 stamp 0 len 0 derived off open on desc 2 marks 2 syncs 0, mark 7 org.eclipse.core.resources.problemmarker command int 1 lineNumber int 1 location text /P/a message text m severity int 2, mark 8 org.eclipse.core.resources.problemmarker command int 0 lineNumber int 1 location text /P/a message text m severity int 2
0|commit; show /P|touched 0 problems 0; project node 2 stamp 0 len 0 derived off open on desc 2 marks 1 syncs 0, mark 7 org.eclipse.core.resources.problemmarker command int 1 lineNumber int 1 location text /P/a message text m severity int 2
0|clean /P 1; show /P|ok; project node 2 stamp 0 len 0 derived off open on desc 2 marks 0 syncs 0
0|handed /P 1 6; commit !/P/a=m; show /P|none, all 6 of /P/src in /P/out; touched 0 problems 1; project node 2 stamp 0 len 0 derived off open on desc 2 marks 1 syncs 0, mark 9 org.eclipse.core.resources.problemmarker command int 1 lineNumber int 1 location text /P/a message text m severity int 2
0|describe /P {"commands":[{"builder":"copy","inputs":["src"],"output":"bin"}]}; show /P|ok; project node 2 stamp 0 len 0 derived off open on desc 3 marks 0 syncs 0"#;

/// A first build, told at its end; one that finds its output changed, and one that finds nothing; a file that was moved and
/// replaced; then references, all anew, and a builder that isn't there.
const COPIED: &str = r#"0|batch; project /P; folder /P/src; file /P/src/a 1|ok
0|describe /P {"commands":[{"builder":"copy","inputs":["src"],"output":"bin"}]}|ok
0|endbatch; begin /; batch|ok, notice, / *, /P + OPEN, /P/src +, /P/src/a +; ok
0|checkout build 10; handed /P 0 10; commit /a=1|ok, /P copy; none, all 10 /P/src/a=1 of /P/src in /P/bin; touched 1 problems 0
0|checkin settled; endbatch; batch; write /P/bin/a x|ok; ok, notice, / *, /P *, /P/bin +, /P/bin/a +; ok
0|checkout build 10; handed /P 0 10|ok, /P copy; delta, /P *, /P/bin *, /P/bin/a * CONTENT, since 10 /P/bin/a=x /P/src/a=1 of /P/src in /P/bin
0|commit /a=1; handed /P 0 10; commit|touched 1 problems 0; delta, since 10 /P/bin/a=1 /P/src/a=1 of /P/src in /P/bin; touched 0 problems 0
0|move /P/src/a /P/x; file /P/src/a 2|ok
0|handed /P 0 10|delta, /P *, /P/src *, /P/src/a * CONTENT MOVED_TO=/P/x REPLACED, /P/x + MOVED_FROM=/P/src/a, since 10 /P/bin/a=1 /P/src/a=2 of /P/src in /P/bin
0|commit /a=2; describe /P {"commands":[{"builder":"copy","inputs":["src"],"output":"bin"}],"references":["Q"]}|touched 1 problems 0; ok
0|handed /P 0 10; commit|none, all 10 /P/bin/a=2 /P/src/a=2 of /P/src in /P/bin; touched 0 problems 0
0|handed /P 0 6|none, all 6 /P/bin/a=2 /P/src/a=2 of /P/src in /P/bin
0|describe /P {"commands":[{"builder":"zz","inputs":["src"],"output":"bin"}]}; handed /P 0 10; checkin settled|ok; refused 35 zz; ok"#;

/// A build that ends for want of memory once a command was handed something: no command is under way, what it was built last
/// stays, so the next build hands the same, and its commit is right.
const WANTING: &str = r#"0|batch; project /P; folder /P/src; file /P/src/a 1; begin /|ok
0|describe /P {"commands":[{"builder":"copy","inputs":["src"],"output":"bin"}]}|ok
0|checkout build 10; handed /P 0 10; commit /a=1; checkin settled|ok, /P copy; none, all 10 /P/src/a=1 of /P/src in /P/bin; touched 1 problems 0; ok
0|write /P/src/a 2; checkout build 10|ok; ok, /P copy
0|handed /P 0 10; checkin no-memory|delta, /P *, /P/src *, /P/src/a * CONTENT, since 10 /P/bin/a=1 /P/src/a=2 of /P/src in /P/bin; ok
0|commit; checkout build 10; commit|refused 33 none; ok, /P copy; refused 37
0|handed /P 0 10; commit /a=2|delta, /P *, /P/src *, /P/src/a * CONTENT, since 10 /P/bin/a=1 /P/src/a=2 of /P/src in /P/bin; touched 1 problems 0
0|handed /P 0 10; checkin settled|delta, since 10 /P/bin/a=2 /P/src/a=2 of /P/src in /P/bin; ok"#;

/// Two projects that refer to each other, of which each copies what the other has: in the second round nothing changes.
const KNOT: &str =
    r#"0|batch; project /A; folder /A/src; file /A/src/a 1; project /B; folder /B/src; file /B/src/b 2; begin /|ok
0|describe /A {"commands":[{"builder":"copy","inputs":["/B/src"],"output":"out"}],"references":["B"]}|ok
0|describe /B {"commands":[{"builder":"copy","inputs":["/A/src"],"output":"out"}],"references":["A"]}|ok
0|checkout build 10|ok, /A copy, /B copy, knot /A /B
0|handed /A 0 10; commit /b=2|none, all 10 /B/src/b=2 of /B/src in /A/out; touched 1 problems 0
0|handed /B 0 10; commit /a=1|none, all 10 /A/src/a=1 of /A/src in /B/out; touched 1 problems 0
0|handed /A 0 10|delta, /B *, /B/out +, /B/out/a +, since 10 /A/out/b=2 /B/src/b=2 of /B/src in /A/out
0|commit; handed /B 0 10|touched 0 problems 0; delta, since 10 /A/src/a=1 /B/out/a=1 of /A/src in /B/out
0|commit; checkin unsettled /A /B|touched 0 problems 0; ok"#;

/// What is refused without the services, while another pass has them and of who has them for something else; states that are
/// kept, each in the place of its participant's, the last of several; and those that are kept again where a save didn't end as
/// saved, each with its own tree.
const SAVES: &str = r#"0|enter; batch; project /P; file /P/a 1|id 1; ok
0|kept; saving a=1; checkin saved; checkin save-failed|; refused 33 none
0|checkout save 1; checkout save 2; checkout build 10|ok; refused 32 0; refused 15 null
1|checkout save 1; saving a=1; checkin save-failed; begin /; checkout build 10; end /|refused 32 0; refused 33 0; refused 33 0; ok; refused 32 0; ok
0|handed /P 0 10; commit; clean /P 0; checkin settled; checkin saved; take; leave|refused 33 0; refused 33 0; refused 33 0; refused 33 0; refused 33 0; refused 42
0|saving a=1 b*=2; kept; file /P/b 2; checkin cleaned; checkin saved|ok; a=1, b=2 since; ok; refused 33 0; ok
0|kept; checkin saved; saving a=1|a=1, b=2 since, / *, /P *, /P/b +; refused 33 none
0|checkout save 2; saving a*=3 c=4; kept|ok; ok; a=3 since, b=2 since, / *, /P *, /P/b +, c=4
0|delete /P/a; saving c*=5; kept|ok; ok; a=3 since, / *, /P *, /P/a -, b=2 since, / *, /P *, /P/a -, /P/b +, c=5 since
0|checkin save-failed; kept|ok; a=1, b=2 since, / *, /P *, /P/a -, /P/b +
0|checkout save 1; saving b=9; checkin participant b; kept|ok; ok; ok; a=1, b=2 since, / *, /P *, /P/a -, /P/b +
0|checkout save 1; checkin save-too-large; checkout save 1; checkin save-numbers; checkout save 1; checkin save-no-memory|ok
0|checkout save 1; saving a=5 a*=6; checkin saved; kept|ok; ok; ok; a=6 since, b=2 since, / *, /P *, /P/a -, /P/b +
0|delete /P; kept|ok; a=6 since, / *, /P -, /P/b -, b=2 since, / *, /P -, /P/a -
0|checkout save 1; saving; checkin saved; kept|ok; ok; ok; a=6 since, / *, /P -, /P/b -, b=2 since, / *, /P -, /P/a -
0|begin /; checkout build 10; saving a=1; checkin saved; checkin save-failed; checkin settled|ok; ok; refused 33 0; refused 33 0; refused 33 0; ok
0|checkout save 1; saving a=; checkin saved; kept; leave|ok; ok; ok; a="", b=2 since, / *, /P -, /P/a -; refused 42"#;

#[test]
fn states_are_kept_where_a_save_ends_as_saved(rt: HostRuntime) {
    play_all(&rt, SAVES);
}

#[test]
fn what_concerns_the_services_is_refused_in_order(rt: HostRuntime) {
    play_all(&rt, REFUSALS);
}

#[test]
fn what_is_due_is_handed_for_the_command_under_way(rt: HostRuntime) {
    play_all(&rt, UNDER_WAY);
    play_all(&rt, HANDED);
}

#[test]
fn commits_leave_what_their_edits_say(rt: HostRuntime) {
    play_all(&rt, FILES);
    play_all(&rt, PROBLEMS);
}

#[test]
fn builds_hand_and_commit_what_is_due(rt: HostRuntime) {
    play_all(&rt, COPIED);
    play_all(&rt, WANTING);
    play_all(&rt, KNOT);
}

/// Many files that no command takes, and one that is built once.
const MANY: &str = r#"0|batch; project /P; begin /; folder /P/m; folder /P/m/a|ok
0|file /P/m/a/f1 x; file /P/m/a/f2 x; file /P/m/a/f3 x; file /P/m/a/f4 x; file /P/m/a/f5 x; file /P/m/a/f6 x; file /P/m/a/f7 x; file /P/m/a/f8 x|ok
0|copy /P/m/a /P/m/b; copy /P/m/a /P/m/c; copy /P/m/a /P/m/d; copy /P/m/a /P/m/e; copy /P/m/a /P/m/f; copy /P/m/a /P/m/g; copy /P/m/a /P/m/h|ok
0|copy /P/m /P/n; copy /P/m /P/o; copy /P/m /P/p; copy /P/m /P/q; copy /P/m /P/r; copy /P/m /P/s; copy /P/m /P/t|ok
0|folder /P/src; file /P/src/a 1|ok
0|describe /P {"commands":[{"builder":"copy","inputs":["src"],"output":"bin"}]}|ok
0|checkout build 10; handed /P 0 10; commit|ok, /P copy; none, all 10 /P/src/a=1 of /P/src in /P/bin; touched 0 problems 0"#;

const CHANGE: &str =
    "0|write /P/src/a 1; handed /P 0 10; commit|ok; delta, /P *, /P/src *, /P/src/a * CONTENT, since 10 /P/src/a=1 of /P/src in /P/bin; touched 0 problems 0";

/// Of many files one changes: it is handed with what it lies in, at each build.
#[test]
fn one_change_among_many_files_is_handed_alone(rt: HostRuntime) {
    let mut core = start(&rt);
    play(&rt, &mut core, MANY);
    for _ in 0..1_000 {
        play(&rt, &mut core, CHANGE);
    }
    let_go(core);
}
