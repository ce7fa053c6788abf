//! Whether the names of a text are those of a database.
ghost use Rattle.std.specs.Prelude.{◌≡◌, ◌↔◌, IsTrue};

use rc_dbtext::lexer::NameWord;
use rc_names::Names;

/// Returns true if the given texts are the names of the services, in their order.
pub(crate) fn are_services(texts: &[NameWord<'_>], names: &Names) -> bool
    ensures { IsTrue result ↔ (texts.now ≡ names.now) }
{
    if texts.len() != usize::from(names.len()) {
        return false;
    }
    for id in 0..names.len() {
        if texts[usize::from(id)].text() != names.name_of(id).text() {
            return false;
        }
    }
    true
}
