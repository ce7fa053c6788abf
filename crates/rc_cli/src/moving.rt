//! What an update moves, from where the session of the old database stands.
ghost use Rattle.std.specs.Prelude.{◌≡◌, false, IfOk};
ghost use Rattle.rc_model.specs.Graph.{IsClosed};
ghost use Rattle.rc_model.specs.Names.{Has};
ghost use Rattle.rc_update.specs.Conversions.{conversions_of};
ghost use Rattle.rc_cli.specs.Updating.{IsUpdate, parts_of};

use rc_db::Db;
use rc_session::Session;
use rc_set::NoMem;
use rc_update::{Conversion, Update, carry};
use std::alloc::Global;

/// Returns what an update moves, by what is live in a session of the old database.
pub(crate) fn update_of(
    alloc: Global,
    from: &Session,
    new: &Db,
    list: &[Conversion<'_>],
) -> Result<Update, NoMem>
    requires { from.now.begun ≡ false }
    ensures update { IfOk result (λ update. IsUpdate from.now.database new.now
        (conversions_of list.now) from.now.line (parts_of update)) }
    ensures closed { IfOk result (λ update. IsClosed new.now.needs (Has update.kept)) }
{
    carry(alloc, from.db(), new, list, from.journal().live())
}
