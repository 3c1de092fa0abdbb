// The sheet program, run with an argument that it does not know: the sheet on standard input is not read.
#![tactic(auto)]

fn main(rt: HostRuntime) {
    sheet_program::run(&rt, &mut rt.stdin(), &mut rt.stdout(), &mut rt.stderr());
}
