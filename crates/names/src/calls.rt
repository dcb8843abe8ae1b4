// A call, with its words as the caller gave them: any word may come in.
#[derive(Clone, Copy)]
pub enum Call {
    BeginUpdate,
    BeginQuery,
    Read { number: u64, item: u64 },
    Write { number: u64, item: u64, value: u64 },
    Commit { number: u64 },
    Abort { number: u64 },
    Settle { number: u64 },
    BeginRelaxed,
}
