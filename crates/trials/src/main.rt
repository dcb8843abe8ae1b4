// The trials of document 01, all of them, and those of requests E2, E4 to E8 and E11, on the keeper as it is
// compiled; then every kind of damage to good tables, one by one.
//
// A line for each step says what was expected and what was found, and ends in DIFFERS where the two
// are not the same; the last line counts. What is expected is written in the texts of the trials,
// from document 01 and not from what the keeper answers.
#![tactic(auto)]

mod bad_heads;
mod bad_items;
mod bad_reads;
mod bad_relaxed;
mod bad_settled;
mod bad_slots;
mod damage;
mod empty;
mod letters;
mod limits;
mod line;
mod locks;
mod play;
mod quota;
mod reading;
mod relaxed;
mod sample;
mod say;
mod set;
mod settling;
mod stamping;
mod state;
mod steps;
mod waiters;

use tally::Tally;

fn trials(rt: &HostRuntime, tally: Tally) -> Tally {
    let mut t = locks::f_to_h(rt, locks::a_to_e(rt, tally));
    t = stamping::j_to_l(rt, stamping::i(rt, t));
    t = limits::p(rt, limits::o(rt, limits::m_and_n(rt, t)));
    t = waiters::w(rt, waiters::s_to_v(rt, quota::r(rt, quota::q(rt, t))));
    t = empty::aa(rt, settling::z(rt, settling::x_and_y(rt, t)));
    t = reading::ac(rt, reading::ab(rt, t));
    relaxed::ah_and_ai(rt, relaxed::ag(rt, t))
}

fn damages(rt: &HostRuntime, tally: Tally) -> Tally {
    let mut t = bad_slots::slots(rt, bad_heads::heads(rt, tally));
    t = quota::held(rt, 31, quota::held(rt, 15, quota::held(rt, 0, t)));
    t = bad_settled::settled(
        rt,
        31,
        bad_settled::settled(rt, 15, bad_settled::settled(rt, 0, t)),
    );
    t = bad_reads::reads(rt, 31, bad_reads::reads(rt, 15, bad_reads::reads(rt, 0, t)));
    t = bad_relaxed::relaxed(
        rt,
        31,
        bad_relaxed::relaxed(rt, 15, bad_relaxed::relaxed(rt, 0, t)),
    );
    bad_items::items(rt, t)
}

fn main(rt: HostRuntime) {
    let t = damages(&rt, trials(&rt, Tally::new()));
    say::number(&rt, t.tried);
    say::say(&rt, b" tried, ");
    say::number(&rt, t.right);
    say::say(&rt, b" as expected\n");
}
