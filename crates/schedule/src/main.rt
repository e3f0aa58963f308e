// Prints the key schedule that standard input asks for (document 01, "Edges").

#![tactic(auto)]

fn main(rt: HostRuntime) {
    // That writing fails is not looked at.
    let _ = schedule_io::run(rt.stdin(), &rt.stdout());
}
