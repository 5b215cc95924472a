// The program over an image that is refused; for its stored run.
#![tactic(auto)]

use desk::run_all;

// Kept: the same main as the program's own, since a stored run is of one program with its arguments.
fn main(rt: HostRuntime) -> anyhow::Result<()> {
    run_all(&rt)
}
