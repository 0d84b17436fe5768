ghost use Rattle.std.specs.Prelude.{◌≡◌, ◌+◌, ◌≤◌, ◌<◌, length, [], IfOk, IfSome};
ghost use Rattle.text_tokens.specs.Character as text;
ghost use Rattle.text_tokens.specs.Found.{inside_of};

use crate::escape::quoted_character;
use std::alloc::{AllocError, Global};

/// The text between quotes, and how many bytes are left after the closing quote.
#[derive(Drop)]
pub struct Inside {
    pub text: String,
    pub left: usize,
}

#[tactic(auto, using(crate::proofs::Quotes::quote_steps))]
/// What stands between quotes, after the opening one; `None` where there is no closing one or a
/// character is none.
pub fn between_quotes(alloc: Global, quote: u8, bytes: &[u8]) -> Result<Option<Inside>, AllocError>
    ensures value { IfOk result (λ inside. inside_of inside ≡ text.between_quotes quote 0 [] bytes.now) }
    ensures within { IfOk result (λ inside. IfSome inside (λ i. i.left < length bytes.now)) }
{
    let mut text = String::new(alloc);
    let mut skip = 0usize;
    let mut rest = bytes;
    while let Some((first, more)) = rest.split_first() {
        if skip > 0 {
            skip -= 1;
        } else if *first == quote {
            let left = more.len();
            return Ok(Some(Inside { text, left }));
        } else {
            let Some(spelled) = quoted_character(rest) else {
                return Ok(None);
            };
            text.push(spelled.code)?;
            skip = spelled.size.saturating_sub(1);
        }
        rest = more;
    }
    Ok(None)
}
