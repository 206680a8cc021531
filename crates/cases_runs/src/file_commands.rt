use crate::kept_files::{FILE, Files};
use crate::statements::{asked, ran};
use ak_base::Table;
use ak_keep::{KeepFault, Keeper, Readable};
use ak_tables::OpenTables;
use cases_keepers::{answer_of_keeper, failed};
use cases_lines::{Unread, row_text, table_of};
use std::alloc::Global;

/// The answer to a command over the file: of one that is not told below, that of the keeper that is open.
pub fn answer_of_file<T: OpenTables>(
    alloc: Global,
    files: &mut Files<'_, T>,
    word: &str,
    rest: &str,
) -> Result<String, Unread> {
    match word {
        "new" => {
            files.forget();
            Ok(String::from_str(alloc, "ok")?)
        },
        "open" => opened(alloc, files.open()),
        "open-beside" => opened(alloc, files.open_beside(rest)),
        "sql" => {
            files.close();
            ran(alloc, files.rt, FILE, rest)
        },
        "ask" => {
            files.close();
            asked(alloc, files.rt, FILE, rest)
        },
        _ => match &mut files.keeper {
            Some(keeper) => answer_of_open(alloc, keeper, word, rest),
            None => Err(Unread::Bad),
        },
    }
}

fn opened(alloc: Global, answer: Result<(), KeepFault>) -> Result<String, Unread> {
    match answer {
        Ok(()) => Ok(String::from_str(alloc, "ok")?),
        Err(fault) => failed(alloc, fault),
    }
}

/// The answer to a command of the keeper that is open.
fn answer_of_open<K: Keeper>(
    alloc: Global,
    keeper: &mut K,
    word: &str,
    rest: &str,
) -> Result<String, Unread> {
    if word == "rows" {
        return row_texts(alloc, keeper, table_of(rest)?);
    }
    answer_of_keeper(alloc, keeper, word, rest)
}

/// Up to 100 rows of a table, with a space between.
fn row_texts<R: Readable>(alloc: Global, keeper: &mut R, table: Table) -> Result<String, Unread> {
    match keeper.page(table, -1, 100) {
        Ok(page) => {
            let mut made = String::new(alloc);
            for row in page.as_slice() {
                made.push_str(row_text(alloc, row)?.as_str())?;
                made.push_str(" ")?;
            }
            made.push_str("end")?;
            Ok(made)
        },
        Err(fault) => failed(alloc, fault),
    }
}
