ghost use Rattle.std.specs.Prelude.{◌≡◌, ◌<◌, ◌+◌, ◌%◌, IfOk, length};
ghost use Rattle.ring128.specs.Ring.{sums3};
ghost use Rattle.replicated_share.specs.Share.{share_of};

use crate::pair_list::PairList;
use prg_chacha::{Pads, Seed};
use ring128::{Memory, Words, sub};
use std::alloc::Global;

/// The three shares of a list, each as long as the list.
#[derive(Drop)]
pub struct Three {
    pub x0: Words,
    pub x1: Words,
    pub x2: Words,
    pub ghost lengths: { (length x0 ≡ length x1) × (length x1 ≡ length x2) },
}

/// Splits a list into three that add up to it, place by place: at place i the pads 2i and 2i + 1 of the seed,
/// and what is then left of the number. The only error is out of memory.
pub fn split(alloc: Global, values: &[u128], seed: &Seed) -> Result<Three, Memory>
    ensures x0 { IfOk result (λ t. t.x0 ≡ share_of 0 seed.now values.now) }
    ensures x1 { IfOk result (λ t. t.x1 ≡ share_of 1 seed.now values.now) }
    ensures x2 { IfOk result (λ t. t.x2 ≡ share_of 2 seed.now values.now) }
    ensures whole { IfOk result (λ t. sums3 t.x0 t.x1 t.x2 ≡ values.now) }
{
    let mut x0 = Vec::with_capacity(alloc, values.len())?;
    let mut x1 = Vec::with_capacity(alloc, values.len())?;
    let mut x2 = Vec::with_capacity(alloc, values.len())?;
    let mut pads = Pads::new(seed, 0);
    for value in values {
        let a = pads.next();
        let b = pads.next();
        x0.push_reserved(a);
        x1.push_reserved(b);
        x2.push_reserved(sub(sub(*value, a), b));
    }
    Ok(Three {
        x0: Words::from_vec(x0),
        x1: Words::from_vec(x1),
        x2: Words::from_vec(x2),
    })
}

fn copy(alloc: Global, list: &Words) -> Result<Words, Memory>
    ensures { IfOk result (λ w. w ≡ list.now) }
{
    Ok(Words::from_vec(Vec::from_slice(alloc, list.as_slice())?))
}

impl Three {
    ghost use Rattle.replicated_share.specs.Lists.{list_at};

    /// Share 0, 1 or 2.
    pub fn share(&self, k: u8) -> &Words
        requires { k < 3 }
        ensures { result.now ≡ list_at self.now k }
    {
        match k {
            0 => &self.x0,
            1 => &self.x1,
            _ => &self.x2,
        }
    }

    /// What server 0, 1 or 2 holds: its own share and that of the next server, both copied. The only error is
    /// out of memory.
    pub fn pair(&self, alloc: Global, server: u8) -> Result<PairList, Memory>
        requires { server < 3 }
        ensures first { IfOk result (λ p. p.first ≡ list_at self.now server) }
        ensures second { IfOk result (λ p. p.second ≡ list_at self.now ((server + 1) % 3)) }
    {
        let first = copy(alloc, self.share(server))?;
        let second = copy(alloc, self.share((server + 1) % 3))?;
        Ok(PairList { first, second })
    }

    /// What servers 0, 1 and 2 hold. Each share stands at two servers: it is moved to one and copied for the
    /// other. The only error is out of memory.
    pub fn into_pairs(self, alloc: Global) -> Result<(PairList, PairList, PairList), Memory>
        ensures zero { IfOk result (λ p. (p.0.first ≡ self.x0) × (p.0.second ≡ self.x1)) }
        ensures one { IfOk result (λ p. (p.1.first ≡ self.x1) × (p.1.second ≡ self.x2)) }
        ensures two { IfOk result (λ p. (p.2.first ≡ self.x2) × (p.2.second ≡ self.x0)) }
    {
        let Three { x0, x1, x2 } = self;
        let at_two = copy(alloc, &x0)?;
        let at_zero = copy(alloc, &x1)?;
        let at_one = copy(alloc, &x2)?;
        Ok((
            PairList {
                first: x0,
                second: at_zero,
            },
            PairList {
                first: x1,
                second: at_one,
            },
            PairList {
                first: x2,
                second: at_two,
            },
        ))
    }
}
