//! The quota book of a fileset.
ghost use Rattle.std.specs.Prelude.{◌≡◌, OnErr, OnOk};
ghost use Rattle.fileset_model.specs.Usage.{passes as passes_limit, with_limits};
ghost use Rattle.quota_book.specs.Book.{Charges, FitsAll, HasAll, HasNoTrace, Refunds, empty_book, limits_in, refusal_in, used};

use crate::account::{Account, Share, Side};
use crate::accounts::{account_of, put_share, reserve, settle_all};
use crate::totals::{charge_all, refund_all};
use fileset_model::{Limits, OutOfMemory, Owner, Refusal, Usage};
use std::alloc::Global;
use std::marker::Model;

/// What the users and groups of a fileset use, and what the whole fileset uses, with their limits,
/// now and as they were kept. An owner who once used something or had limits has a place from then
/// on, so that no other owner is moved when a change is kept or taken back. Each call finds an
/// owner by halving.
#[derive(Drop)]
pub struct QuotaBook {
    accounts: Vec<(Owner, Account)>,
    changed: Vec<Owner>,
}

impl Model for QuotaBook {
    ghost use Rattle.std.specs.Prelude.{◌≤◌, vec_capacity, vec_len};
    ghost use Rattle.quota_book.specs.Accounts.{AreAccounts, books_of};
    ghost use Rattle.quota_book.specs.Book.{KeptBook, kept_book_code};

    ghost Value = { KeptBook };

    ghost coded = { kept_book_code };

    ghost view = { λ b. books_of b.accounts.items };

    ghost invariant = { λ b. AreAccounts b.accounts.items b.changed.items
        × (vec_len b.accounts ≤ vec_capacity b.changed) };
}

impl QuotaBook {
    /// A book in which no one uses anything and there are no limits. This is also what is kept.
    /// Takes no memory.
    pub fn new(alloc: Global) -> QuotaBook
        ensures { result ≡ record { book = empty_book; kept = empty_book } }
    {
        QuotaBook {
            accounts: Vec::new(alloc),
            changed: Vec::new(alloc),
        }
    }

    /// What an owner uses.
    pub fn usage(&self, who: Owner) -> Usage
        ensures { result ≡ used self.now.book who }
    {
        account_of(&self.accounts, who).share(Side::Now).usage
    }

    /// An owner's limits. A limit of 0 means no limit.
    pub fn limits(&self, who: Owner) -> Limits
        ensures { result ≡ limits_in self.now.book who }
    {
        account_of(&self.accounts, who).share(Side::Now).limits
    }

    /// What the owner's limits refuse if `files` more files and `blocks` more blocks of 512 bytes
    /// are asked for. Files are checked first. Returns None if and only if they refuse neither.
    pub fn ask(&self, who: Owner, files: u64, blocks: u64) -> Option<Refusal>
        ensures { result ≡ refusal_in self.now.book who files blocks }
    {
        let limits = self.limits(who);
        let usage = self.usage(who);
        if passes(limits.files, usage.files, files) {
            return Some(Refusal::QuotaFiles {
                limit: limits.files,
                used: usage.files,
            });
        }
        if passes(limits.blocks, usage.blocks, blocks) {
            return Some(Refusal::QuotaBlocks {
                limit: limits.blocks,
                used: usage.blocks,
                asked: blocks,
            });
        }
        None
    }

    /// Sets an owner's limits. After an error the book is as before.
    pub fn set_limits(&mut self, who: Owner, limits: Limits) -> Result<(), OutOfMemory>
        ensures ok { OnOk result (self.new.book ≡ record self.old.book {
          limits = with_limits self.old.book.limits who limits;
        }) }
        ensures kept { self.new.kept ≡ self.old.kept }
        ensures err { OnErr result (self.new ≡ self.old) }
    {
        reserve(&mut self.accounts, &mut self.changed, 1)?;
        let usage = account_of(&self.accounts, who).share(Side::Now).usage;
        put_share(
            &mut self.accounts,
            &mut self.changed,
            who,
            Share { usage, limits },
        );
        Ok(())
    }

    /// Adds `files` files and `blocks` blocks to what the user, the group and the fileset use. The
    /// sums are below 2^64. After an error the book is as before.
    pub fn charge(&mut self, uid: u32, gid: u32, files: u64, blocks: u64) -> Result<(), OutOfMemory>
        requires { FitsAll uid gid files blocks (used self.old.book) }
        ensures ok { OnOk result (Charges uid gid files blocks self.old.book self.new.book) }
        ensures kept { self.new.kept ≡ self.old.kept }
        ensures err { OnErr result (self.new ≡ self.old) }
        ensures trace { HasNoTrace self.new.book }
        ensures kept_trace { HasNoTrace self.new.kept }
    {
        reserve(&mut self.accounts, &mut self.changed, 3)?;
        charge_all(
            &mut self.accounts,
            &mut self.changed,
            uid,
            gid,
            files,
            blocks,
        );
        Ok(())
    }

    /// Takes `files` files and `blocks` blocks from what the user, the group and the fileset use.
    /// Each of them uses at least that much. Takes no memory.
    pub fn refund(&mut self, uid: u32, gid: u32, files: u64, blocks: u64)
        requires { HasAll uid gid files blocks (used self.old.book) }
        ensures refunds { Refunds uid gid files blocks self.old.book self.new.book }
        ensures kept { self.new.kept ≡ self.old.kept }
        ensures trace { HasNoTrace self.new.book }
        ensures kept_trace { HasNoTrace self.new.kept }
    {
        refund_all(
            &mut self.accounts,
            &mut self.changed,
            uid,
            gid,
            files,
            blocks,
        );
    }

    /// Keeps the book as it is now. Takes no memory, and time in proportion to what has changed.
    pub fn keep(&mut self)
        ensures book { self.new.book ≡ self.old.book }
        ensures kept { self.new.kept ≡ self.old.book }
        ensures trace { HasNoTrace self.new.book }
    {
        settle_all(&mut self.accounts, &mut self.changed, Side::Now);
    }

    /// Takes the book back to what was kept. Takes no memory, and time in proportion to what has
    /// changed.
    pub fn take_back(&mut self)
        ensures book { self.new.book ≡ self.old.kept }
        ensures kept { self.new.kept ≡ self.old.kept }
        ensures trace { HasNoTrace self.new.book }
    {
        settle_all(&mut self.accounts, &mut self.changed, Side::Kept);
    }
}

/// Whether `asked` more would pass a limit. A limit of 0 means no limit.
fn passes(limit: u64, used: u64, asked: u64) -> bool
    ensures { result ≡ passes_limit limit used asked }
{
    limit != 0 && asked != 0 && (asked > limit || used > limit - asked)
}
