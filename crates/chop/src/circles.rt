// The circle that a refusal shows, found from the links.
ghost use Rattle.std.specs.Prelude.{◌≡◌, ◌≢◌, ◌<◌, length};
ghost use Rattle.chop.specs.declared.Finding.TheVariants.{Refused};
ghost use Rattle.chop.specs.Pieces.{pieces_of};
ghost use Rattle.chop.specs.Verdicts.{said, shows};
ghost use Rattle.chop.specs.Judgement.{closing as closingAt, turning as turningOf, circle_at, verdict_by};
ghost use Rattle.chop.specs.Linked.{Linked};
ghost use Rattle.words.specs.Below.{found_below};

use crate::links::{conflicts_of, others, siblings_of};
use crate::{Finding, Judged, MOST, plain};

// The pieces in conflict with b from which a way leads to b's lowest sibling and avoids b.
fn closing(words: &[u64], links: &[u64], b: usize) -> u64
    requires { Linked words.now links.now × (b < length links.now) }
    ensures { result ≡ closingAt (pieces_of words.now) links.now b }
{
    let siblings = siblings_of(words, b);
    if siblings == 0 {
        return 0;
    }
    let goal = graph::lowest(siblings);
    let room = others(links.len(), b);
    let reached = graph::joined(links, room, goal);
    conflicts_of(words, b) & reached
}

// The lowest piece at which a circle closes.
#[tactic(auto, unfolding(crate::specs::Judgement::turning))]
fn turning(words: &[u64], links: &[u64]) -> Option<u64>
    requires { Linked words.now links.now }
    ensures { result ≡ found_below (length links.now) (turningOf (pieces_of words.now) links.now) }
{
    words::first_below(
        links.len() as u64,
        |b| closing(words, links, b as usize) != 0,
    )
}

// The refusal with the circle that closes at b.
fn refusal(words: &[u64], links: &[u64], b: usize) -> Judged
    requires { Linked words.now links.now × (b < length links.now) × (closingAt (pieces_of words.now) links.now b ≢ 0) }
    ensures { result ≡ shows Refused (circle_at (pieces_of words.now) links.now b) }
{
    let goal = graph::lowest(siblings_of(words, b));
    let room = others(links.len(), b);
    let from = graph::lowest(closing(words, links, b));
    let count = graph::distance(links, room, goal, from);
    let mut circle: [u64; MOST] = [0; MOST];
    circle[0] = b as u64;
    graph::put_way(links, room, goal, from, count, &mut circle[1..]);
    Judged {
        finding: Finding::Refused,
        length: count + 2,
        circle,
    }
}

// The judgement on pieces whose links are known.
pub fn judge_linked(words: &[u64], links: &[u64]) -> Judged
    requires { Linked words.now links.now }
    ensures { result ≡ said (verdict_by (pieces_of words.now) links.now) }
{
    match turning(words, links) {
        Some(b) => refusal(words, links, b as usize),
        None => plain(Finding::Accepted),
    }
}
