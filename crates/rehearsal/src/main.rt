#![tactic(auto)]
// The rehearsal (document 01, "The rehearsal") as a program: reads standard input, and writes what `rehearsing::rehearse` makes of it. Where
// a read or a write fails it says so on standard error; after a failed read it prints nothing else.
//
// Each function here is proved to be safe and to end; no contract can say what is read or written. Assumes nothing of its own.
use rehearsal_input::MAX_INPUT;
use rehearsing::MAX_OUTPUT;

fn print(rt: &HostRuntime, input: &[u8]) {
    let mut output = [0; MAX_OUTPUT];
    let count = rehearsing::rehearse(input, &mut output);
    if console::print(&mut rt.stdout(), &output, count) < count {
        console::complain(
            &mut rt.stderr(),
            b"rehearsal: standard output can't be written\n",
        );
    }
}

fn main(rt: HostRuntime) {
    let mut buffer = [0; MAX_INPUT];
    let Ok(got) = console::read_input(&mut rt.stdin(), &mut buffer) else {
        console::complain(
            &mut rt.stderr(),
            b"rehearsal: standard input can't be read\n",
        );
        return;
    };
    print(&rt, &buffer[..got]);
}
