// Flies the ticks of a file or of standard input from the airframe and the state before them, and beside them their reflection;
// prints both lines of each tick, how many were accepted, and whether the flight and its own reflection mirror.
#![tactic(auto)]

fn main(rt: HostRuntime) {
    lines::fly_file::<lines::Track>(&rt, b"mirror");
}
