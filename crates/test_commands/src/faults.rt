//! What the program writes after `tcpkit: ` for each fault.
use kit_commands::ToolError;
use kit_words::WordsError;
use std::io;
use tcp_conn::ConfigError;
use tcp_replay::Side;

const OF_COMMANDS: [ToolError; 8] = [
    ToolError::BadLine { line: 3 },
    ToolError::NoMemory,
    ToolError::ReadFault,
    ToolError::WriteFault,
    ToolError::Config(Side::A, ConfigError::BadCapacity),
    ToolError::Config(Side::B, ConfigError::BadMss),
    ToolError::Config(Side::A, ConfigError::BadShift),
    ToolError::Config(Side::A, ConfigError::BadLimit),
];

const OF_WORDS: [WordsError; 2] = [WordsError::BadWords, WordsError::NoMemory];

/// Prints the line of each fault.
pub(crate) fn print_faults(rt: &impl Print) -> io::Result<()> {
    for fault in &OF_COMMANDS {
        println!(rt; "{fault}")?;
    }
    for fault in &OF_WORDS {
        println!(rt; "{fault}")?;
    }
    Ok(())
}
