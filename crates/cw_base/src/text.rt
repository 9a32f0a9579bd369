ghost use Rattle.std.specs.Prelude.{◌≡◌, ◌<◌, All, IfOk, string_bytes};

use crate::OutOfMemory;
use std::alloc::Global;
use std::marker::Model;

/// A text in a public field.
#[derive(Drop)]
pub struct Text {
    text: String,
}

impl Model for Text {
    ghost use Rattle.std.specs.Prelude.{List, ℕ, string_bytes};

    ghost Value = { List ℕ };

    ghost view = { λ t. string_bytes t.text };
}

impl Text {
    pub fn as_str(&self) -> &str
        ensures { result.now ≡ self.now }
    {
        self.text.as_str()
    }

    pub fn as_bytes(&self) -> &[u8]
        ensures { result.now ≡ self.now }
    {
        self.text.as_bytes()
    }

    /// Returns the text that `bytes` spell. Each byte is an ASCII character.
    pub fn from_ascii(alloc: Global, bytes: &[u8]) -> Result<Text, OutOfMemory>
        requires { All (λ b. b < 128) bytes.now }
        ensures { IfOk result (λ t. t ≡ bytes.now) }
    {
        let mut text = String::new(alloc);
        for byte in bytes {
            text.push(char::from(*byte))?;
        }
        Ok(Text { text })
    }

    pub fn clone(&self) -> Result<Text, OutOfMemory>
        ensures { IfOk result (λ t. t ≡ self.now) }
    {
        Ok(Text {
            text: self.text.clone()?,
        })
    }
}
