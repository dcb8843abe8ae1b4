// The numbers below another, tried one after another by a test that the caller hands over: whether each
// passes, whether one does, how many do, the word of those that do, and the lowest of them.
//
// Each test is pure, so what it answers at a number is a fact; a contract says what comes of the facts.
// All but `first_below` try every number, whatever they find.
ghost use Rattle.std.specs.Prelude.{◌≡◌, ℕ, Bool, ◌<◌, ◌≤◌};
ghost use Rattle.rules.specs.Words.{every_below, some_below, count_below, slots_that, first_from};
ghost use Rattle.words.specs.Below.{found_below};

// Whether every number below n passes.
pub fn every_below<F: Fn(u64) -> bool>(n: u64, passes: F) -> bool
    requires { (i : ℕ) → i < n → F.pre passes i }
    ensures { (p : ℕ → Bool) → ((i : ℕ) (b : Bool) → i < n → F.post passes i b → b ≡ p i) → result ≡ every_below n p }
{
    let mut every = true;
    for i in 0..n {
        every = passes(i) & every;
    }
    every
}

// Whether some number below n passes.
pub fn some_below<F: Fn(u64) -> bool>(n: u64, passes: F) -> bool
    requires { (i : ℕ) → i < n → F.pre passes i }
    ensures { (p : ℕ → Bool) → ((i : ℕ) (b : Bool) → i < n → F.post passes i b → b ≡ p i) → result ≡ some_below n p }
{
    let mut some = false;
    for i in 0..n {
        some = passes(i) | some;
    }
    some
}

// How many numbers below n pass.
pub fn count_below<F: Fn(u64) -> bool>(n: u64, passes: F) -> u64
    requires { (i : ℕ) → i < n → F.pre passes i }
    ensures { (p : ℕ → Bool) → ((i : ℕ) (b : Bool) → i < n → F.post passes i b → b ≡ p i) → result ≡ count_below n p }
{
    let mut count = 0;
    for i in 0..n {
        if passes(i) {
            count += 1;
        }
    }
    count
}

// The word of those below n that pass, a bit for each.
pub fn those_below<F: Fn(u64) -> bool>(n: u64, passes: F) -> u64
    requires fits { n ≤ 64 }
    requires callable { (i : ℕ) → i < n → F.pre passes i }
    ensures { (p : ℕ → Bool) → ((i : ℕ) (b : Bool) → i < n → F.post passes i b → b ≡ p i) → result ≡ slots_that n p }
{
    let mut those = 0;
    for i in 0..n {
        if passes(i) {
            those = those | (1 << i);
        }
    }
    those
}

// The lowest number below n that passes.
pub fn first_below<F: Fn(u64) -> bool>(n: u64, passes: F) -> Option<u64>
    requires { (i : ℕ) → i < n → F.pre passes i }
    ensures { (p : ℕ → Bool) → ((i : ℕ) (b : Bool) → i < n → F.post passes i b → b ≡ p i) → result ≡ found_below n (first_from p 0 n) }
{
    for i in 0..n {
        if passes(i) {
            return Some(i);
        }
    }
    None
}
