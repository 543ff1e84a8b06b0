//! Accounts by owner, as a list in the order of owners, with a list of the owners whose accounts
//! may have changed since they were kept.
ghost use Rattle.std.specs.Prelude.{◌≡◌, ◌+◌, ◌<◌, ◌≤◌, [], IsSome, IsTrue, OnOk, true, vec_capacity, vec_len};
ghost use Rattle.std.specs.FinMap.Entries.{find as found_at, is_sorted};
ghost use Rattle.fileset_model.specs.fileset_values.Orders.{owner_cmp};
ghost use Rattle.quota_book.specs.Accounts.{AreAccounts, HaveRoom, SetsShare, SettlesAll, SettlesOne, account_at, is_same, with_owner};

use crate::account::{Account, Share, Side};
use fileset_model::entries::{find, put, replace};
use fileset_model::{Limits, OutOfMemory, Owner, Usage};

/// The account of an owner. An owner about whom nothing is noted uses nothing and has no limits.
pub(crate) fn account_of(accounts: &[(Owner, Account)], who: Owner) -> Account
    requires { IsTrue (is_sorted owner_cmp accounts.now) }
    ensures { result ≡ account_at accounts.now who }
{
    match find(accounts, &who) {
        Some(account) => *account,
        None => Account::Same(Share {
            usage: Usage {
                files: 0,
                blocks: 0,
            },
            limits: Limits {
                files: 0,
                blocks: 0,
            },
        }),
    }
}

/// Makes room for `more` owners more. After an error all is as before, including the room.
pub(crate) fn reserve(
    accounts: &mut Vec<(Owner, Account)>,
    changed: &mut Vec<Owner>,
    more: usize,
) -> Result<(), OutOfMemory>
    ensures ok { OnOk result (HaveRoom (vec_len accounts.new + more) (vec_capacity accounts.new)
        (vec_capacity changed.new)) }
    ensures accounts { accounts.new.items ≡ accounts.old.items }
    ensures changed { changed.new.items ≡ changed.old.items }
    ensures list_room { vec_capacity changed.old ≤ vec_capacity changed.new }
{
    accounts.reserve(more)?;
    changed.reserve(accounts.len() + more)?;
    Ok(())
}

/// Puts an owner on the list, which has room for it, if the account has not changed so far.
fn list_owner(changed: &mut Vec<Owner>, who: Owner, account: &Account)
    requires { is_same account.now ≡ true → vec_len changed.old < vec_capacity changed.old }
    ensures list { changed.new.items ≡ with_owner (is_same account.now) who changed.old.items }
    ensures list_room { vec_capacity changed.new ≡ vec_capacity changed.old }
{
    if account.is_same() {
        changed.push_reserved(who);
    }
}

/// Gives an owner that share. There is room for the owner.
pub(crate) fn put_share(
    accounts: &mut Vec<(Owner, Account)>,
    changed: &mut Vec<Owner>,
    who: Owner,
    share: Share,
)
    requires accounts { AreAccounts accounts.old.items changed.old.items }
    requires room { HaveRoom (vec_len accounts.old + 1) (vec_capacity accounts.old)
        (vec_capacity changed.old) }
    ensures sets { SetsShare who share accounts.old.items accounts.new.items }
    ensures accounts { AreAccounts accounts.new.items changed.new.items }
    ensures len { vec_len accounts.new ≤ vec_len accounts.old + 1 }
    ensures capacity { vec_capacity accounts.old ≤ vec_capacity accounts.new }
    ensures list_room { vec_capacity changed.new ≡ vec_capacity changed.old }
{
    let account = account_of(accounts, who);
    list_owner(changed, who, &account);
    let _ = put(accounts, who, account.with(share));
}

/// Gives an owner who has an account that share. Takes no memory.
pub(crate) fn replace_share(
    accounts: &mut Vec<(Owner, Account)>,
    changed: &mut Vec<Owner>,
    who: Owner,
    share: Share,
)
    requires accounts { AreAccounts accounts.old.items changed.old.items }
    requires room { vec_len accounts.old ≤ vec_capacity changed.old }
    requires there { IsSome (found_at owner_cmp who accounts.old.items) }
    ensures sets { SetsShare who share accounts.old.items accounts.new.items }
    ensures accounts { AreAccounts accounts.new.items changed.new.items }
    ensures len { vec_len accounts.new ≡ vec_len accounts.old }
    ensures list_room { vec_capacity changed.new ≡ vec_capacity changed.old }
{
    let account = account_of(accounts, who);
    list_owner(changed, who, &account);
    replace(accounts, &who, account.with(share));
}

/// Makes an owner's share that of one side, now or as it was kept, for both. A share of nothing
/// stays where it is, so that no other account is moved.
fn settle(accounts: &mut Vec<(Owner, Account)>, who: Owner, side: Side)
    requires { IsTrue (is_sorted owner_cmp accounts.old.items) }
    ensures settles { SettlesOne side who accounts.old.items accounts.new.items }
    ensures sorted { IsTrue (is_sorted owner_cmp accounts.new.items) }
    ensures len { vec_len accounts.new ≡ vec_len accounts.old }
{
    let Some(account) = find(accounts, &who) else {
        return;
    };
    let share = account.share(side);
    replace(accounts, &who, Account::Same(share));
}

/// Makes each owner's share that of one side, now or as it was kept, for both. Takes no memory.
pub(crate) fn settle_all(accounts: &mut Vec<(Owner, Account)>, changed: &mut Vec<Owner>, side: Side)
    requires { AreAccounts accounts.old.items changed.old.items }
    ensures settles { SettlesAll side accounts.old.items accounts.new.items }
    ensures accounts { AreAccounts accounts.new.items changed.new.items }
    ensures len { vec_len accounts.new ≡ vec_len accounts.old }
    ensures list_room { vec_capacity changed.new ≡ vec_capacity changed.old }
{
    while let Some(who) = changed.pop() {
        settle(accounts, who, side);
    }
}
