// What an import of notes keeps.
ghost use Rattle.std.specs.Prelude.{Result, ℤ, List};
ghost use Rattle.ak_content_laws.specs.SoundCalls.{EndsOrStays, HoldsSound};
ghost use Rattle.ak_imports.specs.Imports.{DoesImport};
ghost use Rattle.ak_imports.specs.declared.imports.Import.{Import};
ghost use Rattle.ak_imports.specs.declared.imports.Imported.{Imported};
ghost use Rattle.ak_imports.specs.declared.imports.NotesFault.{NotesFault};
ghost use Rattle.ak_keep.specs.Keepers.{Keeping};
ghost use Rattle.ak_undo.specs.declared.steps.Step.{Step};

/// A call that imports notes, accepted or refused, keeps what is held sound, and each undo, whatever its records are.
pub fn imports_keep_sound()
    ensures { (at : ℤ) (given : Import) (before now : Keeping) (steps left : List Step) (result : Result Imported NotesFault)
        → EndsOrStays (DoesImport at given before now steps left) before now steps left result → HoldsSound before steps → HoldsSound now left }
{}
