// The words of a command line.
ghost use Rattle.std.specs.Prelude.{◌≡◌, ◌++◌, ◌∷◌, [], codes, map, string_bytes, OnOk, OnErr, IfOk};

use sig_base::NoMemory;
use std::alloc::Global;
use std::marker::Model;

// The program's own name, and these words after it.
fn named(alloc: Global, words: &[String]) -> Result<Vec<&str>, NoMemory>
    ensures { IfOk result (λ v. map (λ w. w.now) v.items
        ≡ codes "sigaudit" ∷ map string_bytes words.now) }
{
    let mut all: Vec<&str> = Vec::new(alloc);
    all.push("sigaudit")?;
    for word in words {
        all.push(word.as_str())?;
    }
    Ok(all)
}

/// The words of a command line, without the program's own name.
#[derive(Drop)]
pub struct Words {
    alloc: Global,
    words: Vec<String>,
}

impl Model for Words {
    ghost use Rattle.std.specs.Prelude.{List, ℕ, map, string_bytes};

    ghost Value = { List (List ℕ) };

    ghost view = { λ w. map string_bytes w.words.items };
}

impl Words {
    /// No words yet.
    pub fn new(alloc: Global) -> Self
        ensures { result ≡ [] }
    {
        Words {
            alloc,
            words: Vec::new(alloc),
        }
    }

    /// Adds a word at the end; after an error the words are as before.
    pub fn push(&mut self, word: &str) -> Result<(), NoMemory>
        ensures ok { OnOk result (self.new ≡ self.old ++ word.now ∷ []) }
        ensures err { OnErr result (self.new ≡ self.old) }
    {
        let word = String::from_str(self.alloc, word)?;
        self.words.push(word)?;
        Ok(())
    }

    /// The words after the program's own name, which is `sigaudit`.
    pub fn after_name(&self) -> Result<Vec<&str>, NoMemory>
        ensures { IfOk result (λ v. map (λ w. w.now) v.items ≡ codes "sigaudit" ∷ self.now) }
    {
        named(self.alloc, &self.words)
    }
}
