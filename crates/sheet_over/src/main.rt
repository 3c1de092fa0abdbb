// The sheet program, run with the same sheet and one byte more.
#![tactic(auto)]

fn main(rt: HostRuntime) {
    sheet_program::run(&rt, &mut rt.stdin(), &mut rt.stdout(), &mut rt.stderr());
}
