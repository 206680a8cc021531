// The commands `import` and `export`, over any keeper, clock, input and output: how they end, what they leave and what they write.
// Nothing here knows of the program's words.
#![tactic(auto)]

mod export_runs;
mod import_runs;
mod import_texts;

pub use ak_note_files::ImportPlace;
pub use export_runs::run_export;
pub use import_runs::run_import;
