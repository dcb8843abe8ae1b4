// Text on standard output.
use names::Answer;

pub fn say(rt: &HostRuntime, text: &[u8]) {
    let _ = rt.write_all(text);
}

pub fn byte(rt: &HostRuntime, b: u8) {
    let text = [b];
    say(rt, &text);
}

pub fn number(rt: &HostRuntime, n: u64) {
    let _ = rt.print(n);
}

// A number with a space before it.
pub fn next(rt: &HostRuntime, n: u64) {
    say(rt, b" ");
    number(rt, n);
}

pub fn answer(rt: &HostRuntime, a: Answer) {
    number(rt, a.code);
    next(rt, a.value);
    next(rt, a.number);
    next(rt, a.looked);
}

// How a line ends, by which one that differs is found.
pub fn end(rt: &HostRuntime, ok: bool) {
    if ok {
        say(rt, b"\n");
    } else {
        say(rt, b" DIFFERS\n");
    }
}
