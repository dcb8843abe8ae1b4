// Links among at most 64 vertices: which vertices are near a goal, and the shortest way to it.
//
// The links come as one word for each vertex: bit b of `links[a]` says that a is linked to b. A room
// is a word too: ways stay among its vertices.
#![tactic(auto)]

ghost use Rattle.std.specs.Prelude.{◌≡◌, ℕ, Bool, ◌++◌, cond, ◌+◌, ◌<◌, ◌≤◌, ◌^◌, length, drop, get_or};
ghost use Rattle.std.specs.Int.Bits.{bit_or};
ghost use Rattle.graph.specs.Sets.{lowest as lowestOf, those};
ghost use Rattle.graph.specs.Near.{grown as grownFrom, near as nearTo, joined as joinedTo, distance as distanceTo, way_from};

// The lowest vertex of a set; 64 if it is empty.
#[tactic(auto, unfolding(crate::specs::Sets::lowest, rules::specs::Words::bit, words::specs::Below::found_below))]
pub fn lowest(set: u64) -> u64
    ensures { result ≡ lowestOf set }
{
    words::first_below(64, |at| (set >> at) % 2 == 1).unwrap_or(64)
}

// The set of those below n that pass.
pub fn those_below<F: Fn(usize) -> bool>(n: usize, passes: F) -> u64
    requires fits { n ≤ 64 }
    requires callable { (i : ℕ) → i < n → F.pre passes i }
    ensures { (p : ℕ → Bool) → ((i : ℕ) (b : Bool) → i < n → F.post passes i b → b ≡ p i) → result ≡ those n p }
{
    words::those_below(
        n as u64,
        |i|
            requires { F.pre passes i }
            ensures { F.post passes i result }
        { passes(i as usize) },
    )
}

// The set, with the number `at` in it if `yes`.
pub fn including(set: u64, at: usize, yes: bool) -> u64
    requires { at < 64 }
    ensures { result ≡ cond yes (bit_or set (2 ^ at)) set }
{
    if yes {
        return set | (1 << at);
    }
    set
}

// The vertices of `set`, and those of the room that are linked to one of them.
#[tactic(auto, unfolding(crate::specs::Near::grown, crate::specs::Sets::meets, rules::specs::Words::bit))]
fn grown(links: &[u64], room: u64, set: u64) -> u64
    requires { length links.now ≤ 64 }
    ensures { result ≡ grownFrom links.now room set }
{
    those_below(links.len(), |at| {
        let in_set = (set >> at) % 2 == 1;
        let in_room = (room >> at) % 2 == 1;
        in_set | (in_room & !((links[at] & set) == 0))
    })
}

// The vertices from which a way of at most `most` links leads to the goal, within the room.
pub fn near(links: &[u64], room: u64, goal: u64, most: usize) -> u64
    requires { (length links.now ≤ 64) × (goal < 64) }
    ensures { result ≡ nearTo links.now room goal most }
{
    let mut set: u64 = 1 << goal;
    for turn in 0..most {
        set = grown(links, room, set);
    }
    set
}

// The vertices from which any way leads to the goal, within the room.
pub fn joined(links: &[u64], room: u64, goal: u64) -> u64
    requires { (length links.now ≤ 64) × (goal < 64) }
    ensures { result ≡ joinedTo links.now room goal }
{
    near(links, room, goal, links.len())
}

// How many links the shortest way from `from` to the goal has; as many as there are vertices, if
// there is none.
pub fn distance(links: &[u64], room: u64, goal: u64, from: u64) -> usize
    requires { (length links.now ≤ 64) × (goal < 64) × (from < 64) }
    ensures { result ≡ distanceTo links.now room goal from }
{
    let mut set: u64 = 1 << goal;
    for turn in 0..links.len() {
        if (set >> from) % 2 == 1 {
            return turn;
        }
        set = grown(links, room, set);
    }
    links.len()
}

// The links of a vertex; none for what is no vertex.
fn links_at(links: &[u64], at: u64) -> u64
    ensures { result ≡ get_or links.now at 0 }
{
    links.get(at as usize).copied().unwrap_or(0)
}

// The chosen way of `count` links from `from` to the goal, put into the front of `out`.
pub fn put_way(links: &[u64], room: u64, goal: u64, from: u64, count: usize, out: &mut [u64])
    requires { (length links.now ≤ 64) × (goal < 64) × (count < length out.old) }
    ensures { out.new ≡ way_from links.now room goal count from ++ drop (count + 1) out.old }
{
    let mut at = from;
    for place in 0..count {
        out[place] = at;
        let nearer = near(links, room, goal, count - place - 1);
        at = lowest(links_at(links, at) & nearer);
    }
    out[count] = at;
}
