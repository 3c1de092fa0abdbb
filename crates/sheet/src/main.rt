// The sheet program, run with document 01's example.
#![tactic(auto)]

fn main(rt: HostRuntime) {
    sheet_program::run(&rt, &mut rt.stdin(), &mut rt.stdout(), &mut rt.stderr());
}
