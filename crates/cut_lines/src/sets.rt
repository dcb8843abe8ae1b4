// Which operations are of one piece, and which items it touches, as sets.
ghost use Rattle.std.specs.Prelude.{◌≡◌, ◌/◌, ◌<◌, length};
ghost use Rattle.graph.specs.Sets.{those};
ghost use Rattle.finest.specs.Choppings.{together as togetherIn, touched as touchedIn, touches, leads as leadsIn};
ghost use Rattle.finest.specs.Rows.{operations_in};
ghost use Rattle.cut_lines.specs.Given.{Given};

// How many items there are.
const ITEMS: usize = 64;

// Whether operations i and j are of one piece.
fn together(words: &[u64], cut: &[u64], i: usize, j: usize) -> bool
    requires { Given words.now cut.now × (i < length words.now / 4) × (j < length words.now / 4) }
    ensures { result ≡ togetherIn (operations_in words.now) cut.now i j }
{
    (words[i * 4] == words[j * 4]) & (cut[i] == cut[j])
}

// The operations of the piece of operation i.
pub(crate) fn members_of(words: &[u64], cut: &[u64], i: usize) -> u64
    requires { Given words.now cut.now × (i < length words.now / 4) }
    ensures { result ≡ those (length words.now / 4) (togetherIn (operations_in words.now) cut.now i) }
{
    graph::those_below(words.len() / 4, |at| together(words, cut, i, at))
}

// Whether operation i is the first of its piece.
pub(crate) fn leads(words: &[u64], cut: &[u64], i: usize) -> bool
    requires { Given words.now cut.now × (i < length words.now / 4) }
    ensures { result ≡ leadsIn (operations_in words.now) cut.now i }
{
    let members = members_of(words, cut, i);
    graph::lowest(members) == i as u64
}

// Whether the piece of operation i writes the item, or reads it.
#[tactic(auto, using(crate::proofs::Touching::touching), unfolding(finest::specs::Choppings::touched))]
fn touched(words: &[u64], cut: &[u64], i: usize, writing: bool, item: u64) -> bool
    requires { Given words.now cut.now × (i < length words.now / 4) }
    ensures { result ≡ touchedIn (operations_in words.now) cut.now writing i item }
{
    words::some_below(words.len() as u64 / 4, |j| {
        let at = j as usize;
        let same = together(words, cut, i, at);
        let common = words[at * 4 + 1] == item;
        let writes = words[at * 4 + 2] == 1;
        same & (common & ((writing & writes) | (!writing & !writes)))
    })
}

// The items that the piece of operation i writes, or reads.
#[tactic(auto, unfolding(finest::specs::Choppings::touches))]
pub(crate) fn items_of(words: &[u64], cut: &[u64], i: usize, writing: bool) -> u64
    requires { Given words.now cut.now × (i < length words.now / 4) }
    ensures { result ≡ touches (operations_in words.now) cut.now writing i }
{
    graph::those_below(ITEMS, |at| touched(words, cut, i, writing, at as u64))
}
