ghost use Rattle.std.specs.Prelude.{◌≡◌, ◌≤◌, ◌↔◌, length, IfSome, IsSome};

use std::marker::Model;
use std::str;

/// Where a node is reached: UTF-8 text of at most 64 bytes. Contracts see the bytes.
#[derive(Clone, Copy)]
pub struct Address {
    bytes: [u8; 64],
    count: usize,
}

impl Model for Address {
    ghost use Rattle.std.specs.Prelude.{List, ℕ};

    ghost Value = { List ℕ };

    ghost use Rattle.xt_base.specs.AddressText.{shown, padded, IsPadded};

    ghost view = { shown };

    ghost invariant = { IsPadded };

    ghost inverse = { padded };

    ghost inverse_ok = { λ a h. h.1 };
}

impl Address {
    /// This text, or `None` exactly where it is longer than 64 bytes.
    pub fn of(text: &str) -> Option<Address>
        ensures exact { IsSome result ↔ (length text.now ≤ 64) }
        ensures value { IfSome result (λ made. made ≡ text.now) }
    {
        if text.len() > 64 {
            return None;
        }
        let mut bytes = [0; 64];
        bytes[..text.len()].copy_from_slice(text.as_bytes());
        Some(Address {
            bytes,
            count: text.len(),
        })
    }

    /// The text.
    pub fn as_str(&self) -> &str
        ensures { result.now ≡ self.now }
    {
        match str::from_utf8(&self.bytes[..self.count]) {
            Ok(text) => text,
            Err(_) => "",
        }
    }
}
