// The commands, and what the paper's table lists for each.

// The commands that concern what a desk's row keeps, and nothing else.
#[derive(Clone, Copy)]
pub enum RowCommand {
    Baud,
    Reset,
    ReadBlock,
    WriteBlock,
    SaveBlocks,
    RestoreBlocks,
    SetTimer,
    SendTimer,
    Login,
}

// Those that concern its records too, which stand in the table that all desks share.
#[derive(Clone, Copy)]
pub enum TableCommand {
    SystemReset,
    ReadRecords,
    SendTable,
    RemoveRecords,
    ClearRecords,
}

#[derive(Clone, Copy)]
pub enum Command {
    OnRow(RowCommand),
    OnTable(TableCommand),
}

// What the paper's table lists for a command: control byte, data length, whether the desk must be logged in.
#[derive(Clone, Copy)]
pub struct Terms {
    pub control: u8,
    pub size: usize,
    pub login: bool,
    pub command: Command,
}
