// Dotmuslin: a script of calls on standard input, one answer a line on standard output.
#![tactic(auto)]

use desk::run_all;

fn main(rt: HostRuntime) -> anyhow::Result<()> {
    run_all(&rt)
}
