// Flies the ticks of a file or of standard input from the airframe and the state before them, and prints a line for each (01,
// "Flown by hand").
#![tactic(auto)]

fn main(rt: HostRuntime) {
    lines::fly_file::<lines::Flown>(&rt, b"fly");
}
