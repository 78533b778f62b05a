ghost use Rattle.std.specs.Prelude.{◌≡◌, ◌++◌, [], OnOk, IfOk, is_some, if◌then◌else◌};
ghost use Rattle.std.specs.Arc.{arc_value};
ghost use Rattle.std.specs.FinMap as map;
ghost use Rattle.op_board.specs.Acts.{step, steps, gives};
ghost use Rattle.op_board.specs.Acts.Act.{Counts, Clears, Adds, Forgets, ForgetsIn, ForgetsOlder, ForgetsOlderIn, ForgetsAll, Takes};
ghost use Rattle.op_board.specs.Board.{new_board, next_generation, set_native, clear_pass, list_of, diagnostics_of};
ghost use Rattle.op_board.specs.Checks.{all_fixes};
ghost use Rattle.op_board.specs.Marked.{taken};

use crate::by_file::ByFile;
use crate::check_package::{CheckEntry, push_all};
use crate::checks::{Checks, add_check, all_fixes, push_checks};
use crate::clearing::{clear_checks, clear_id, clear_older, clear_one};
use crate::diagnostic::{CheckFix, NativePass};
use crate::marks::Marks;
use crate::pass_list::{PassList, clear_list, set_lists};
use docs_vfs::FileId;
use lsp_types::Diagnostic;
use plain::{ByNumber, Items, Text};
use std::alloc::{AllocError, Global};
use std::marker::Model;
use std::sync::Arc;

/// The diagnostics of all files, and the files whose lists changed. After a call that had no memory it is only to
/// be dropped.
pub struct DiagnosticCollection {
    alloc: Global,
    generation: u64,
    syntax: ByFile<PassList>,
    semantic: ByFile<PassList>,
    cleared: ByFile<u64>,
    checks: Checks,
    /// The fixes of all checks, where they were gathered since the checks last changed.
    fixes: Option<Arc<Items<CheckFix>, Global>>,
    marks: Marks,
}

impl Drop for DiagnosticCollection {
    fn drop(self) {
        let DiagnosticCollection {
            alloc: _,
            generation: _,
            syntax: _,
            semantic: _,
            cleared: _,
            checks: _,
            fixes: _,
            marks: _,
        } = self;
    }
}

impl Model for DiagnosticCollection {
    ghost use Rattle.std.specs.Coded.{codes};
    ghost use Rattle.std.specs.FinMap as map;
    ghost use Rattle.std.specs.Arc.{arc_value};
    ghost use Rattle.std.specs.Prelude.{◌≡◌, IfSome};
    ghost use Rattle.op_board.specs.Board.{Board};
    ghost use Rattle.op_board.specs.Checks.{all_fixes};
    ghost use Rattle.plain.specs.contracts.shared_json.SharedJson as json;

    ghost Value = { Board };

    ghost coded = { Prim.hlevel (codes, map.code, json.the_row.coded) };

    ghost view = { λ b. record { generation = b.generation; syntax = b.syntax; semantic = b.semantic; cleared = b.cleared; checks = b.checks; marked = b.marks } };

    ghost invariant = { λ b. IfSome b.fixes (λ fixes. arc_value fixes ≡ all_fixes b.checks) };
}

/// Adds what a pass says of a file to a list.
fn push_native(
    into: &mut Items<Diagnostic>,
    lists: &ByFile<PassList>,
    file: FileId,
) -> Result<(), AllocError>
    ensures { OnOk result (into.new ≡ into.old ++ list_of (map.get lists.now file.0)) }
{
    match lists.get(file) {
        None => Ok(()),
        Some(stored) => push_all(into, &stored.list),
    }
}

impl DiagnosticCollection {
    /// A board without lists and marks.
    pub fn new(alloc: Global) -> DiagnosticCollection
        ensures { result ≡ new_board }
    {
        DiagnosticCollection {
            alloc,
            generation: 0,
            syntax: ByFile::new(alloc),
            semantic: ByFile::new(alloc),
            cleared: ByFile::new(alloc),
            checks: ByNumber::new(alloc),
            fixes: None,
            marks: Marks::new(alloc),
        }
    }

    /// The next generation: 1, 2 and so on. None where the greatest number was given; the board then stays as it is.
    #[tactic(auto, unfolding(crate::specs::Board::most_generations))]
    pub fn next_generation(&mut self) -> Option<u64>
        ensures value { result ≡ next_generation self.old }
        ensures after { self.new ≡ (if is_some result then step Counts self.old else self.old) }
    {
        if self.generation < u64::MAX {
            self.generation += 1;
            Some(self.generation)
        } else {
            None
        }
    }

    fn set_pass(
        &mut self,
        pass: NativePass,
        generation: u64,
        lists: Items<(FileId, Items<Diagnostic>)>,
    ) -> Result<(), AllocError>
        ensures { OnOk result (self.new ≡ set_native pass generation lists self.old) }
    {
        match pass {
            NativePass::Syntax => set_lists(
                &mut self.syntax,
                &mut self.marks,
                &self.cleared,
                generation,
                lists,
            ),
            NativePass::Semantic => set_lists(
                &mut self.semantic,
                &mut self.marks,
                &self.cleared,
                generation,
                lists,
            ),
        }
    }

    /// Stores the lists that are accepted, each sorted by start and end, and marks the files whose lists change.
    pub fn set_native_diagnostics(
        &mut self,
        pass: NativePass,
        generation: u64,
        lists: Items<(FileId, Items<Diagnostic>)>,
    ) -> Result<(), AllocError>
        ensures { OnOk result (self.new ≡ steps (gives pass generation lists []) self.old) }
    {
        self.set_pass(pass, generation, lists)?;
        Ok(())
    }

    fn clear_pass(&mut self, pass: NativePass, file: FileId) -> Result<(), AllocError>
        ensures { OnOk result (self.new ≡ clear_pass pass file self.old) }
    {
        match pass {
            NativePass::Syntax => clear_list(self.alloc, &mut self.syntax, &mut self.marks, file),
            NativePass::Semantic => clear_list(
                self.alloc,
                &mut self.semantic,
                &mut self.marks,
                file,
            ),
        }
    }

    /// Empties both lists of a file. From now on it takes only lists of generations that are still to be given.
    pub fn clear_native_for(&mut self, file: FileId) -> Result<(), AllocError>
        ensures { OnOk result (self.new ≡ step (Clears file) self.old) }
    {
        self.clear_pass(NativePass::Syntax, file)?;
        self.clear_pass(NativePass::Semantic, file)?;
        self.cleared.insert(file, self.generation)
    }

    /// Adds a diagnostic of a check, and its fix, and marks its file. A diagnostic of an older generation than its
    /// package has is dropped, and a newer one empties the package first. One that the package has already is dropped.
    pub fn add_check_diagnostic(
        &mut self,
        id: u64,
        generation: u64,
        package: Option<Text>,
        file: FileId,
        diagnostic: Diagnostic,
        fix: Option<CheckFix>,
    ) -> Result<(), AllocError>
        ensures { OnOk result (self.new
            ≡ step (Adds id generation «package» (record { file = file; diagnostic = diagnostic; fix = fix })) self.old) }
    {
        let entry = CheckEntry {
            file,
            diagnostic,
            fix,
        };
        self.fixes = None;
        add_check(
            self.alloc,
            &mut self.checks,
            &mut self.marks,
            id,
            generation,
            package,
            entry,
        )
    }

    /// Forgets a check, and marks the files that lose an entry.
    pub fn clear_check(&mut self, id: u64) -> Result<(), AllocError>
        ensures { OnOk result (self.new ≡ step (Forgets id) self.old) }
    {
        self.fixes = None;
        clear_id(&mut self.checks, &mut self.marks, id)
    }

    /// Forgets a package of a check, and marks the files that lose an entry.
    pub fn clear_check_for_package(
        &mut self,
        id: u64,
        package: Option<Text>,
    ) -> Result<(), AllocError>
        ensures { OnOk result (self.new ≡ step (ForgetsIn id «package») self.old) }
    {
        self.fixes = None;
        clear_one(&mut self.checks, &mut self.marks, id, &package, None)
    }

    /// Forgets the packages of a check whose generations are older than this, and marks the files that lose an entry.
    pub fn clear_check_older_than(&mut self, id: u64, generation: u64) -> Result<(), AllocError>
        ensures { OnOk result (self.new ≡ step (ForgetsOlder id generation) self.old) }
    {
        self.fixes = None;
        clear_older(&mut self.checks, &mut self.marks, id, generation)
    }

    /// Forgets a package of a check if its generation is older than this, and marks the files that lose an entry.
    pub fn clear_check_older_than_for_package(
        &mut self,
        id: u64,
        package: Option<Text>,
        generation: u64,
    ) -> Result<(), AllocError>
        ensures { OnOk result (self.new ≡ step (ForgetsOlderIn id «package» generation) self.old) }
    {
        self.fixes = None;
        clear_one(
            &mut self.checks,
            &mut self.marks,
            id,
            &package,
            Some(generation),
        )
    }

    /// Forgets all checks, and marks the files that lose an entry.
    pub fn clear_check_all(&mut self) -> Result<(), AllocError>
        ensures { OnOk result (self.new ≡ step ForgetsAll self.old) }
    {
        self.fixes = None;
        clear_checks(self.alloc, &mut self.checks, &mut self.marks)
    }

    /// What is said of a file: by the passes, syntax first, and then by the checks in the order of their numbers and
    /// packages.
    pub fn diagnostics_for(&self, file: FileId) -> Result<Items<Diagnostic>, AllocError>
        ensures { IfOk result (λ list. list ≡ diagnostics_of file self.now) }
    {
        let mut list = Items::new(self.alloc);
        push_native(&mut list, &self.syntax, file)?;
        push_native(&mut list, &self.semantic, file)?;
        push_checks(&mut list, &self.checks, file)?;
        Ok(list)
    }

    /// The fixes of all checks, in the order of their numbers and packages, and then as they came.
    pub fn check_fixes(&self) -> Result<Items<CheckFix>, AllocError>
        ensures { IfOk result (λ fixes. fixes ≡ all_fixes self.now.checks) }
    {
        all_fixes(self.alloc, &self.checks)
    }

    /// Gathers the fixes of all checks, so that they are shared without a copy until the checks change.
    pub fn gather_fixes(&mut self) -> Result<(), AllocError>
        ensures { self.new ≡ self.old }
    {
        if self.fixes.is_none() {
            let fixes = all_fixes(self.alloc, &self.checks)?;
            self.fixes = Some(Arc::new(self.alloc, fixes)?);
        }
        Ok(())
    }

    /// The same as `check_fixes`, shared: those that were gathered, or else a copy.
    pub fn share_fixes(&self) -> Result<Arc<Items<CheckFix>, Global>, AllocError>
        ensures { IfOk result (λ fixes. arc_value fixes ≡ all_fixes self.now.checks) }
    {
        match &self.fixes {
            Some(fixes) => Arc::try_clone(fixes),
            None => Ok(Arc::new(self.alloc, all_fixes(self.alloc, &self.checks)?)?),
        }
    }

    /// The files whose lists changed since the last take, in order, or none where there are none.
    pub fn take_changes(&mut self) -> Option<Items<FileId>>
        ensures value { result ≡ taken self.old.marked }
        ensures after { self.new ≡ step Takes self.old }
    {
        self.marks.take()
    }
}
