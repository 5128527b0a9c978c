// Bytes that are all zero.
//
//     is_zero     whether a part is zeros alone, in one pass without a branch
ghost use Rattle.std.specs.Prelude.{◌≡◌};
ghost use Rattle.slots.specs.Table.{is_zero};

// Whether a part is zeros alone. It looks at every byte, which the compiler makes many at a time, in two halves side by side: as one chain
// over all bytes a fresh table takes a quarter more steps.
pub(crate) fn is_zero(bytes: &[u8]) -> bool
    ensures { result ≡ is_zero bytes.now }
{
    let half = bytes.len() / 2;
    let mut any = 0;
    for i in 0..half {
        any |= bytes[i] | bytes[half + i];
    }
    if 2 * half < bytes.len() {
        any |= bytes[2 * half];
    }
    any == 0
}
