ghost use Rattle.std.{specs.Prelude.{◌≡◌, None, IfOk, replicate}, specs.Option.ForSome};
ghost use Rattle.event_chain.specs.Links.{links, prev_of, next_of, linked_in, linked_out, IsSlot};

use std::alloc::{AllocError, Global};
use std::marker::Model;

// For each slot the slot before it and the slot after it. Contracts see two lists by slot.
#[derive(Drop)]
pub(crate) struct SlotLinks {
    prevs: Vec<Option<u32>>,
    nexts: Vec<Option<u32>>,
}

impl Model for SlotLinks {
    ghost use Rattle.std.specs.Prelude.{◌≡◌, length};
    ghost use Rattle.event_chain.specs.Links.{Links, links};

    ghost Value = { Links };

    ghost view = { λ l. links l.prevs.items l.nexts.items };

    ghost invariant = { λ l. length l.prevs.items ≡ length l.nexts.items };
}

impl SlotLinks {
    // Links for `capacity` slots, none of them linked.
    pub(crate) fn open(alloc: Global, capacity: u32) -> Result<Self, AllocError>
        ensures { IfOk result (λ l. l ≡ links (replicate capacity None) (replicate capacity None)) }
    {
        let prevs = vec![in alloc; None; capacity as usize]?;
        let nexts = vec![in alloc; None; capacity as usize]?;
        Ok(SlotLinks { prevs, nexts })
    }

    // The slot after this one. The number must be that of a slot.
    pub(crate) fn next(&self, slot: u32) -> Option<u32>
        requires { IsSlot self.now slot }
        ensures { result ≡ next_of self.now slot }
    {
        self.nexts[slot as usize]
    }

    // The slot before this one. The number must be that of a slot.
    pub(crate) fn prev(&self, slot: u32) -> Option<u32>
        requires { IsSlot self.now slot }
        ensures { result ≡ prev_of self.now slot }
    {
        self.prevs[slot as usize]
    }

    // Puts the run from `first` to `last` between two slots; a side that is absent is an end of the
    // list. The run's inner links stay as they are.
    pub(crate) fn link_in(&mut self, before: Option<u32>, first: u32, last: u32, after: Option<u32>)
        requires ends { IsSlot self.old first × IsSlot self.old last }
        requires sides { ForSome before (IsSlot self.old) × ForSome after (IsSlot self.old) }
        ensures { self.new ≡ linked_in self.old before first last after }
    {
        self.prevs[first as usize] = before;
        self.nexts[last as usize] = after;
        if let Some(slot) = after {
            self.prevs[slot as usize] = Some(last);
        }
        if let Some(slot) = before {
            self.nexts[slot as usize] = Some(first);
        }
    }

    // Leaves out the run between two slots; a side that is absent is an end of the list. The run's
    // own links stay, so it can be put in again as it is.
    pub(crate) fn link_out(&mut self, before: Option<u32>, after: Option<u32>)
        requires { ForSome before (IsSlot self.old) × ForSome after (IsSlot self.old) }
        ensures { self.new ≡ linked_out self.old before after }
    {
        if let Some(slot) = after {
            self.prevs[slot as usize] = before;
        }
        if let Some(slot) = before {
            self.nexts[slot as usize] = after;
        }
    }
}
