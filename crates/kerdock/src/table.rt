//! What is shown of every row of the degree table.
ghost use Rattle.kerdock.specs.Code.{Row};
ghost use Rattle.kerdock.specs.Table.{Among, rows};
ghost use Rattle.kerdock.specs.Sound.{Sound, Published};
ghost use Rattle.kerdock.specs.Words.{Words};

/// Every row of the table is sound.
pub fn table_is_sound()
    ensures { (row : Row) → Among row rows → Sound row }
{}

/// A sound row's words are those of the published form, by the relative trace.
pub fn published_form_holds()
    ensures { (row : Row) → Sound row → Published row }
{}

/// The words of a sound row obey the laws of words.
pub fn words_obey()
    ensures { (row : Row) → Sound row → Words row }
{}
