//! Changes of what owners use.
ghost use Rattle.std.specs.Prelude.{◌≡◌, ◌+◌, ◌≤◌, true, vec_capacity, vec_len};
ghost use Rattle.fileset_model.specs.Usage.{is_owned};
ghost use Rattle.quota_book.specs.Accounts.{AreAccounts, ChangesUsage, HaveRoom, used_at};
ghost use Rattle.quota_book.specs.Book.{FitsAll, HasAll, IsBelow, IsWithin, lowered, raised};
ghost use Rattle.quota_book.specs.Owners.{same_owner};

use crate::account::{Account, Share, Side};
use crate::accounts::{account_of, put_share, replace_share};
use fileset_model::entries::find;
use fileset_model::{Owner, Usage};

/// Adds to what an owner uses. There is room for the owner.
fn add(
    accounts: &mut Vec<(Owner, Account)>,
    changed: &mut Vec<Owner>,
    who: Owner,
    files: u64,
    blocks: u64,
)
    requires accounts { AreAccounts accounts.old.items changed.old.items }
    requires room { HaveRoom (vec_len accounts.old + 1) (vec_capacity accounts.old)
        (vec_capacity changed.old) }
    requires fits { IsBelow files blocks (used_at accounts.old.items who) }
    ensures adds { ChangesUsage (raised files blocks) (λ other. same_owner other who)
        accounts.old.items accounts.new.items }
    ensures accounts { AreAccounts accounts.new.items changed.new.items }
    ensures len { vec_len accounts.new ≤ vec_len accounts.old + 1 }
    ensures capacity { vec_capacity accounts.old ≤ vec_capacity accounts.new }
    ensures list_room { vec_capacity changed.new ≡ vec_capacity changed.old }
{
    let Share { usage, limits } = account_of(accounts, who).share(Side::Now);
    let usage = Usage {
        files: usage.files + files,
        blocks: usage.blocks + blocks,
    };
    put_share(accounts, changed, who, Share { usage, limits });
}

/// Takes from what an owner uses. Takes no memory.
fn subtract(
    accounts: &mut Vec<(Owner, Account)>,
    changed: &mut Vec<Owner>,
    who: Owner,
    files: u64,
    blocks: u64,
)
    requires accounts { AreAccounts accounts.old.items changed.old.items }
    requires room { vec_len accounts.old ≤ vec_capacity changed.old }
    requires enough { IsWithin (record { files = files; blocks = blocks })
        (used_at accounts.old.items who) }
    ensures takes { ChangesUsage (lowered files blocks) (λ other. same_owner other who)
        accounts.old.items accounts.new.items }
    ensures accounts { AreAccounts accounts.new.items changed.new.items }
    ensures len { vec_len accounts.new ≡ vec_len accounts.old }
    ensures list_room { vec_capacity changed.new ≡ vec_capacity changed.old }
{
    let Some(account) = find(accounts, &who) else {
        return;
    };
    let Share { usage, limits } = account.share(Side::Now);
    let usage = Usage {
        files: usage.files - files,
        blocks: usage.blocks - blocks,
    };
    replace_share(accounts, changed, who, Share { usage, limits });
}

/// Adds to what the user, the group and the fileset use. There is room for these owners.
pub(crate) fn charge_all(
    accounts: &mut Vec<(Owner, Account)>,
    changed: &mut Vec<Owner>,
    uid: u32,
    gid: u32,
    files: u64,
    blocks: u64,
)
    requires accounts { AreAccounts accounts.old.items changed.old.items }
    requires room { HaveRoom (vec_len accounts.old + 3) (vec_capacity accounts.old)
        (vec_capacity changed.old) }
    requires fits { FitsAll uid gid files blocks (used_at accounts.old.items) }
    ensures adds { ChangesUsage (raised files blocks) (λ who. is_owned who uid gid)
        accounts.old.items accounts.new.items }
    ensures accounts { AreAccounts accounts.new.items changed.new.items }
    ensures fit { vec_len accounts.new ≤ vec_capacity changed.new }
{
    add(accounts, changed, Owner::User(uid), files, blocks);
    add(accounts, changed, Owner::Group(gid), files, blocks);
    add(accounts, changed, Owner::Fileset, files, blocks);
}

/// Takes from what the user, the group and the fileset use. Takes no memory.
pub(crate) fn refund_all(
    accounts: &mut Vec<(Owner, Account)>,
    changed: &mut Vec<Owner>,
    uid: u32,
    gid: u32,
    files: u64,
    blocks: u64,
)
    requires accounts { AreAccounts accounts.old.items changed.old.items }
    requires room { vec_len accounts.old ≤ vec_capacity changed.old }
    requires enough { HasAll uid gid files blocks (used_at accounts.old.items) }
    ensures takes { ChangesUsage (lowered files blocks) (λ who. is_owned who uid gid)
        accounts.old.items accounts.new.items }
    ensures accounts { AreAccounts accounts.new.items changed.new.items }
    ensures fit { vec_len accounts.new ≤ vec_capacity changed.new }
{
    subtract(accounts, changed, Owner::User(uid), files, blocks);
    subtract(accounts, changed, Owner::Group(gid), files, blocks);
    subtract(accounts, changed, Owner::Fileset, files, blocks);
}
