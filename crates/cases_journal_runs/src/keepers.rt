use crate::disks::CrashDisk;
use crate::journals::CaseJournal;
use ak_base::cut;
use ak_journals::JournalFault;
use cases_keepers::{answer_of_keeper, value_of};
use cases_lines::{Unread, at_place, bytes_text, natural_at};
use std::alloc::Global;

/// `keeper COMMAND|COMMAND|..`: what each command prints, over a disk that is empty, with ` / ` between.
pub fn answers_of_keeper<D: CrashDisk>(alloc: Global, commands: &str) -> Result<String, Unread> {
    let mut journal: CaseJournal<D> = CaseJournal::on(D::sound(alloc)?);
    journal.answers(alloc, commands)
}

impl<D: CrashDisk> CaseJournal<D> {
    fn answers(&mut self, alloc: Global, commands: &str) -> Result<String, Unread> {
        let mut answers = String::new(alloc);
        for (place, command) in commands.split("|").enumerate() {
            if place > 0 {
                answers.push_str(" / ")?;
            }
            answers.push_str(self.answer_line(alloc, command)?.as_str())?;
        }
        Ok(answers)
    }

    fn answer_line(&mut self, alloc: Global, command: &str) -> Result<String, Unread> {
        match cut(command, " ") {
            Some((word, rest)) => self.answer(alloc, word, rest),
            None => self.answer(alloc, command, ""),
        }
    }

    fn answer(&mut self, alloc: Global, word: &str, rest: &str) -> Result<String, Unread> {
        match word {
            "open" => opened_text(alloc, self.open(alloc)?),
            "close" => closed_text(alloc, self.close()),
            "bytes" => self.file_text(alloc),
            "write" => self.write(alloc, rest),
            _ => match &mut self.keeper {
                Some(keeper) => answer_of_keeper(alloc, keeper, word, rest),
                None => Err(Unread::Bad),
            },
        }
    }

    fn file_text(&self, alloc: Global) -> Result<String, Unread> {
        match &self.disk {
            Some(disk) => bytes_text(alloc, disk.bytes()),
            None => Err(Unread::Bad),
        }
    }

    /// `write [PLACE, BYTE]`.
    fn write(&mut self, alloc: Global, rest: &str) -> Result<String, Unread> {
        let (place, byte) = place_and_byte(alloc, rest)?;
        match &mut self.disk {
            Some(disk) => disk.put_byte(place, byte)?,
            None => return Err(Unread::Bad),
        }
        Ok(String::from_str(alloc, "ok")?)
    }
}

/// `ok`, or where the journal is damaged.
fn opened_text(alloc: Global, fault: Option<JournalFault>) -> Result<String, Unread> {
    match fault {
        None => Ok(String::from_str(alloc, "ok")?),
        Some(JournalFault::Damaged(place)) => at_place(alloc, "damaged", place),
        Some(_) => Err(Unread::Ended),
    }
}

fn closed_text(alloc: Global, was_open: bool) -> Result<String, Unread> {
    if !was_open {
        return Err(Unread::Bad);
    }
    Ok(String::from_str(alloc, "ok")?)
}

fn place_and_byte(alloc: Global, rest: &str) -> Result<(u64, u8), Unread> {
    let arguments = value_of(alloc, rest)?;
    let place = natural_at(&arguments, 0)?;
    let byte = natural_at(&arguments, 1)?;
    if byte > 255 {
        return Err(Unread::Bad);
    }
    Ok((place, byte as u8))
}
