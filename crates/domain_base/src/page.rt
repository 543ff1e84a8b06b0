//! A page's bytes.
ghost use Rattle.std.specs.Prelude.{◌≡◌, ℕ, ◌+◌, ◌≤◌, List, length, vec_len, IfOk};
ghost use Rattle.domain_base.specs.Limits.{page_bytes};
ghost use Rattle.domain_base.specs.Page.{zero_bytes, overwritten};

use crate::OutOfMemory;
use crate::limits::PAGE_BYTES;
use std::alloc::Global;
use std::marker::Model;

/// A page: 8,192 bytes on the heap, which contracts see as their list.
#[derive(Debug, Drop)]
pub struct Page {
    content: Vec<u8>,
}

impl Model for Page {
    ghost Value = { List ℕ };

    ghost view = { λ p. p.content.items };

    ghost invariant = { λ p. vec_len p.content ≡ page_bytes };
}

impl Page {
    /// A page of zeros.
    pub fn zeros(alloc: Global) -> Result<Self, OutOfMemory>
        ensures value { IfOk result (λ page. page ≡ zero_bytes PAGE_BYTES) }
        ensures len { IfOk result (λ page. length page ≡ PAGE_BYTES) }
    {
        let content = vec![in alloc; 0; PAGE_BYTES]?;
        Ok(Page { content })
    }

    /// A page with the same bytes.
    pub fn copy(&self, alloc: Global) -> Result<Self, OutOfMemory>
        ensures value { IfOk result (λ page. page ≡ self.now) }
        ensures len { IfOk result (λ page. length page ≡ PAGE_BYTES) }
    {
        let content = Vec::from_slice(alloc, self.bytes())?;
        Ok(Page { content })
    }

    /// The page's bytes. There are always 8,192.
    pub fn bytes(&self) -> &[u8]
        ensures value { result.now ≡ self.now }
        ensures len { length result.now ≡ PAGE_BYTES }
    {
        self.content.as_slice()
    }

    /// Writes these bytes from byte `at` on, and leaves all others.
    pub fn set(&mut self, at: usize, bytes: &[u8])
        requires { at + length bytes.now ≤ PAGE_BYTES }
        ensures value { self.new ≡ overwritten self.old at bytes.now }
        ensures len { length self.new ≡ PAGE_BYTES }
    {
        let end = at + bytes.len();
        self.content[at..end].copy_from_slice(bytes);
    }
}
