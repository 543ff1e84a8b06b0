//! Changes of names, laid over a domain's memory: each lends the files of one fileset to a call on
//! names, has them back, and says for which filesets the domain stands with it.
#![tactic(auto)]

mod laws;
mod looking;
mod making;
mod moving;
mod room;
mod saying;
mod settings;
mod standing;
mod taking;

pub use laws::filesets_of_rows_are_at_hand;
pub use looking::{count_rows, list_names, look_at};
pub use making::{create, link};
pub use moving::rename;
pub use settings::settings_of;
pub use standing::directories_say_where_they_stand;
pub use taking::{remove_directory, unlink};
