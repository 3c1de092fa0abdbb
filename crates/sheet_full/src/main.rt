// The sheet program, run with a sheet of just 49,152 bytes.
#![tactic(auto)]

fn main(rt: HostRuntime) {
    sheet_program::run(&rt, &mut rt.stdin(), &mut rt.stdout(), &mut rt.stderr());
}
