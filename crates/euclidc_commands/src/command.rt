use euclid_ast::Choice;

/// Where the key table stands.
#[derive(Clone, Copy, Drop)]
pub enum TableSource<'a> {
    /// It is the built-in one.
    BuiltIn,
    /// It is read from the file with this name.
    File(&'a str),
}

/// A form of programs.
#[derive(Clone, Copy, Debug, PartialEq, Eq)]
pub enum Form {
    Json,
    Text,
}

/// What the words ask for.
#[derive(Clone, Copy, Drop)]
pub enum Command<'a> {
    /// The decision, by a key table, of the program in the first file on the payment in the second.
    Decide(TableSource<'a>, &'a str, &'a str),
    /// What is found, by a key table and with a budget of splits, on each rule and the default of the program in the first file
    /// under the settings in the second.
    Report(TableSource<'a>, &'a str, &'a str, u32),
    /// The same on one target alone.
    Prove(TableSource<'a>, &'a str, &'a str, Choice, u32),
    /// Whether, by a key table, the certificate in the third file proves that no payment reaches the target of the program in
    /// the first file under the settings in the second.
    Check(TableSource<'a>, &'a str, &'a str, Choice, &'a str),
    /// The program in the file, in the form.
    Convert(Form, &'a str),
    /// How many targets are reached of the program of a seed, under the settings of samples.
    Sample(u32),
}
