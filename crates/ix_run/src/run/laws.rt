//! The meaning of the definitions of scripts, in their users' words. These functions do nothing: their contracts are the laws.
ghost use Rattle.std.specs.Prelude.{ℕ, ◌≡◌, ◌≢◌, ◌<◌, ◌^◌, ◌++◌, ◌∷◌, ◌⊎◌, List, [], Option, Some, None, All, Contains, decimal, nat_eq};
ghost use Rattle.ix_tables.specs.Bounded.{Bounded, bounded_new};
ghost use Rattle.ix_slottable.specs.SlotTableState.{slot_table_new};
ghost use Rattle.ix_slotmap.specs.Generations.{SlotKey, slot_map_new};
ghost use Rattle.ix_commands.specs.QueueRun.{queue_reply, queue_after};
ghost use Rattle.ix_commands.specs.VectorRun.{vector_reply, vector_after};
ghost use Rattle.ix_commands.specs.SlotTableRun.{slot_table_reply, slot_table_after};
ghost use Rattle.ix_commands.specs.SlotMapRun.{slot_map_reply, slot_map_after};
ghost use Rattle.ix_commands.specs.MapRun.{map_reply, map_after};
ghost use Rattle.ix_commands.specs.StringRun.{string_reply, string_after};
ghost use Rattle.ix_commands.specs.declared.reply.Reply.{Reply};
ghost use Rattle.ix_run.specs.Forms.{queue_forms, vector_forms, slot_table_forms, slot_map_forms, slot_key_forms, slot_map_command_of, map_forms, string_forms};
ghost use Rattle.ix_run.specs.Headers.{capacity_of, first_generation};
ghost use Rattle.ix_run.specs.Laws.{HasU64s, HasU64sAnd, IsSlotKey, IsRun, IsRunBy, IsU64};
ghost use Rattle.ix_run.specs.Lines.{IsOneLine, with_line_feed, text_of_lines, lines_of};
ghost use Rattle.ix_run.specs.ReplyTexts.{reply_text, slot_map_reply_text, items_text, entry_text, key_entry_text};
ghost use Rattle.ix_run.specs.Script.{string_shown};
ghost use Rattle.ix_run.specs.Words.{Form, KeyForm, HasNames, words_text, command_of, key_words_text, key_command_of};
ghost use Rattle.ix_run.specs.declared.run.grammar.header.Container.TheVariants as container;
ghost use Rattle.ix_run.specs.declared.run.grammar.header.Storage.{Storage};

/// States that an input is cut into lines at each line feed. A last line without a line feed is a line too, unless it is empty. The
/// lines together are the whole input.
pub fn line_law()
    ensures lines { (lines : List (List ℕ)) → All IsOneLine lines
        → lines_of (text_of_lines lines) ≡ lines }
    ensures last_line { (lines : List (List ℕ)) (last : List ℕ)
        → All IsOneLine lines → IsOneLine last → last ≢ []
        → lines_of (text_of_lines lines ++ last) ≡ lines ++ last ∷ [] }
    // The line feeds are put back; the last line may have had none.
    ensures input { (input : List ℕ) → (input ≡ text_of_lines (lines_of input))
        ⊎ (with_line_feed input ≡ text_of_lines (lines_of input)) }
{}

/// States that each reply is one line: its text has no line feed. The text that `show` prints has none either, whatever bytes a
/// string holds.
pub fn reply_law()
    ensures reply { (reply : Reply ℕ ℕ) → HasU64s reply → IsOneLine (reply_text reply) }
    ensures items { (items : List ℕ) → All IsU64 items → IsOneLine (items_text decimal items) }
    ensures entries { (entries : List (ℕ × ℕ))
        → All (λ entry. IsU64 entry.0 × IsU64 entry.1) entries
        → IsOneLine (items_text entry_text entries) }
    ensures text { (text : Bounded ℕ) → IsOneLine (string_shown text) }
    ensures slot_map_reply { (reply : Reply SlotKey ℕ) → HasU64sAnd IsSlotKey reply
        → IsOneLine (slot_map_reply_text reply) }
    ensures key_entries { (entries : List (SlotKey × ℕ))
        → All (λ entry. IsSlotKey entry.0 × IsU64 entry.1) entries
        → IsOneLine (items_text key_entry_text entries) }
{}

/// States that a script is the run of its commands. The replies to a header and to lines that spell commands are `ready` and the
/// texts of the replies to the commands, one after the other. A container of that capacity gives these replies.
pub fn script_law()
    ensures queue { (storage : Storage)
        → IsRun queue_forms queue_reply queue_after container.Queue storage
        (bounded_new (capacity_of storage)) }
    ensures vec { (storage : Storage)
        → IsRun vector_forms vector_reply vector_after container.Vector storage
        (bounded_new (capacity_of storage)) }
    ensures table { (storage : Storage)
        → IsRun slot_table_forms slot_table_reply slot_table_after container.SlotTable storage
        (slot_table_new (capacity_of storage)) }
    ensures flat { (storage : Storage)
        → IsRun map_forms (map_reply nat_eq) (map_after nat_eq) container.FlatMap storage
        (slot_table_new (capacity_of storage)) }
    ensures text { (storage : Storage)
        → IsRun string_forms string_reply string_after container.String storage
        (bounded_new (capacity_of storage)) }
    ensures slot { (storage : Storage) (start : Option ℕ)
        → IsRunBy slot_map_command_of slot_map_reply_text slot_map_reply slot_map_after
        (container.SlotMap start) storage
        (slot_map_new (capacity_of storage) (first_generation start)) }
{}

/// States that a line spells at most one command.
///
/// By any table of forms, the lines that are commands are texts of a name and numbers. If the names are distinct words, the line of
/// a name and numbers is the command that the name's form makes of the numbers. The same is true of tables of forms with a key. No
/// line is a command by two tables, one of each sort.
pub fn spelling_law<C>()
    ensures text { (forms : List (Form C)) (line : List ℕ) (command : C)
        → command_of forms line ≡ Some command
        → (form : Form C) × (numbers : List ℕ) × Contains forms form × All (λ n. n < 2 ^ 64) numbers
        × (form.1 numbers ≡ Some command) × (line ≡ words_text form.0 numbers) }
    ensures each { (forms : List (Form C)) (form : Form C) (numbers : List ℕ) → HasNames forms
        → Contains forms form
        → All (λ n. n < 2 ^ 64) numbers
        → command_of forms (words_text form.0 numbers) ≡ form.1 numbers }
    ensures names { HasNames queue_forms × HasNames vector_forms × HasNames slot_table_forms
        × HasNames map_forms
        × HasNames string_forms }
    ensures key_text { (forms : List (KeyForm C)) (line : List ℕ) (command : C)
        → key_command_of forms line ≡ Some command
        → (form : KeyForm C) × (key : SlotKey) × (numbers : List ℕ) × Contains forms form
        × IsSlotKey key
        × All (λ n. n < 2 ^ 64) numbers × (form.1 key numbers ≡ Some command)
        × (line ≡ key_words_text form.0 key numbers) }
    ensures key_each { (forms : List (KeyForm C)) (form : KeyForm C) (key : SlotKey)
        (numbers : List ℕ) → HasNames forms
        → Contains forms form → IsSlotKey key → All (λ n. n < 2 ^ 64) numbers
        → key_command_of forms (key_words_text form.0 key numbers) ≡ form.1 key numbers }
    ensures either { (forms : List (Form C)) (key_forms : List (KeyForm C)) (line : List ℕ)
        (command : C)
        → command_of forms line ≡ Some command → key_command_of key_forms line ≡ None }
    ensures slot_map_names { HasNames slot_map_forms × HasNames slot_key_forms }
{}
