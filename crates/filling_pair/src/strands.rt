// Fills, strands and pairs of strands, as lists.
ghost use Rattle.std.specs.Prelude.{◌≡◌, [], ◌∷◌, ◌++◌, OnOk, OnErr};

use sig_base::{NoMemory, Tenth};
use std::alloc::Global;
use std::marker::Model;

/// An event put into a tenth that isn't known.
#[derive(Clone, Copy, Debug, PartialEq, Eq)]
pub struct Fill {
    /// Tenths of a second since the start of the window.
    pub at: u32,
    pub code: u8,
    pub param: u16,
}

/// The fills of one channel, first to last.
#[derive(Drop)]
pub struct Fills {
    items: Vec<Fill>,
}

impl Model for Fills {
    ghost use Rattle.std.specs.Prelude.{List};
    ghost use Rattle.filling_pair.specs.declared.strands.Fill.{Fill};

    ghost Value = { List Fill };

    ghost view = { λ f. f.items.items };
}

impl Fills {
    /// No fills. It can't run out of memory.
    pub fn new(alloc: Global) -> Fills
        ensures { result ≡ [] }
    {
        Fills {
            items: Vec::new(alloc),
        }
    }

    /// Adds a fill at the end. `NoMemory`: there was no memory for it, and nothing changed.
    pub fn push(&mut self, item: Fill) -> Result<(), NoMemory>
        ensures ok { OnOk result (self.new ≡ self.old ++ item ∷ []) }
        ensures err { OnErr result (self.new ≡ self.old) }
    {
        self.items.push(item)?;
        Ok(())
    }

    /// The fills, as they were added.
    pub fn list(&self) -> &[Fill]
        ensures { result.now ≡ self.now }
    {
        self.items.as_slice()
    }
}

/// A channel's start before the window, and its events at tenths that aren't known.
#[derive(Drop)]
pub struct Strand {
    /// The channel's place among the specs.
    pub spec: u16,
    /// The colour with which it comes into the window.
    pub colour: u8,
    /// The tenth at which that colour was entered, at most -1.
    pub entry: Tenth,
    pub fills: Fills,
}

/// The strands of a rule's channels.
#[derive(Drop)]
pub struct Strands {
    items: Vec<Strand>,
}

impl Model for Strands {
    ghost use Rattle.std.specs.Prelude.{List};
    ghost use Rattle.filling_pair.specs.declared.strands.Strand.{Strand};

    ghost Value = { List Strand };

    ghost view = { λ s. s.items.items };
}

impl Strands {
    /// No strands. It can't run out of memory.
    pub fn new(alloc: Global) -> Strands
        ensures { result ≡ [] }
    {
        Strands {
            items: Vec::new(alloc),
        }
    }

    /// Adds a strand at the end. `NoMemory`: there was no memory for it, and nothing changed.
    pub fn push(&mut self, item: Strand) -> Result<(), NoMemory>
        ensures ok { OnOk result (self.new ≡ self.old ++ item ∷ []) }
        ensures err { OnErr result (self.new ≡ self.old) }
    {
        self.items.push(item)?;
        Ok(())
    }

    /// The strands, as they were added.
    pub fn list(&self) -> &[Strand]
        ensures { result.now ≡ self.now }
    {
        self.items.as_slice()
    }
}

/// Strands with which a line is kept, and strands with which it is broken.
#[derive(Drop)]
pub struct Pair {
    pub keeps: Strands,
    pub breaks: Strands,
}

/// The pairs of some lines, in the order of the lines.
#[derive(Drop)]
pub struct Pairs {
    items: Vec<Pair>,
}

impl Model for Pairs {
    ghost use Rattle.std.specs.Prelude.{List};
    ghost use Rattle.filling_pair.specs.declared.strands.Pair.{Pair};

    ghost Value = { List Pair };

    ghost view = { λ p. p.items.items };
}

impl Pairs {
    /// No pairs. It can't run out of memory.
    pub fn new(alloc: Global) -> Pairs
        ensures { result ≡ [] }
    {
        Pairs {
            items: Vec::new(alloc),
        }
    }

    /// Adds a pair at the end. `NoMemory`: there was no memory for it, and nothing changed.
    pub fn push(&mut self, item: Pair) -> Result<(), NoMemory>
        ensures ok { OnOk result (self.new ≡ self.old ++ item ∷ []) }
        ensures err { OnErr result (self.new ≡ self.old) }
    {
        self.items.push(item)?;
        Ok(())
    }

    /// The pairs, as they were added.
    pub fn list(&self) -> &[Pair]
        ensures { result.now ≡ self.now }
    {
        self.items.as_slice()
    }
}
