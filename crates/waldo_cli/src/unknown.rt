ghost use Rattle.std.specs.Prelude.{◌≡◌, Err, IfOk, map, string_bytes};
ghost use Rattle.waldo_run.specs.Words.{command_in};
ghost use Rattle.waldo_words.specs.declared.faults.WordFault.TheVariants.{Word};

use std::alloc::{AllocError, Global};

/// Words that are refused as an unknown command. They stand in for a line of which some argument is no text, since that
/// one cannot be known from its neighbours. The only error is out of memory.
#[tactic(auto, unfolding(waldo_words::specs::Words::command_of, waldo_words::specs::Options::command_named))]
pub fn command(alloc: Global) -> Result<Vec<String>, AllocError>
    ensures { IfOk result (λ words. command_in (map string_bytes words.items) ≡ Err (Word 0)) }
{
    let mut words = Vec::new(alloc);
    words.push(String::new(alloc))?;
    Ok(words)
}
