#![tactic(auto)]
// Sets of acceptors as the bits of a byte, bit a for acceptor a, and majorities (document 01: 2 × size > A).
//
//     insert_bit      an acceptor joins a set
//     count_bits      how many of the first so many acceptors are in a set
//     is_majority     whether they are a majority
//     majority_table  the constant table of majorities (document 02, Paper 7)
//
// What each of them means stands in specs/. Every byte is a set: no function has a `requires`.
ghost use Rattle.std.specs.Prelude.{◌≡◌};
ghost use Rattle.quorum.specs.Quorum.{is_majority};
ghost use Rattle.quorum.specs.Mask.{join, ones};
ghost use Rattle.quorum.specs.Majorities.{majorities};

mod majorities;

use majorities::MAJORITIES;

// The set with an acceptor in it. A byte has 8 bits: an acceptor from 8 on changes nothing.
pub fn insert_bit(mask: u8, acc: u8) -> u8
    ensures { result ≡ join mask acc }
{
    if 8 <= acc {
        return mask;
    }
    let bit = 1u8 << acc;
    mask | bit
}

// How many of the first `total` bits stand.
pub fn count_bits(total: u8, mask: u8) -> u32
    ensures { result ≡ ones total mask }
{
    if 8 <= total {
        return mask.count_ones();
    }
    let low = (1u8 << total) - 1;
    (mask & low).count_ones()
}

// Whether the members among the first `total` acceptors are a majority of them.
pub fn is_majority(total: u8, mask: u8) -> bool
    ensures { result ≡ is_majority total (ones total mask) }
{
    ((total / 2) as u32) < count_bits(total, mask)
}

// The constant table. It is stored anew wherever it is used.
pub fn majority_table() -> [u8; 254]
    ensures { result ≡ majorities }
{
    MAJORITIES
}
