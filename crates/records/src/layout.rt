// Where the fields of a message record start. Each ends where the next one starts.
pub const STATE: usize = 0;

pub const ID: usize = 1;

pub const SOURCE: usize = 5;

pub const DESTINATION: usize = 27;

pub const SERVICE_TYPE: usize = 49;

pub const ESM_CLASS: usize = 54;

pub const PRIORITY: usize = 56;

pub const SCHEDULE: usize = 57;

pub const VALIDITY: usize = 73;

pub const REGISTERED: usize = 89;

pub const DEFAULT_ID: usize = 91;

pub const LENGTH: usize = 92;

pub const TEXT: usize = 93;

pub const FINAL_DATE: usize = 233;

pub const ERROR_CODE: usize = 249;

pub const MARK: usize = 250;

pub const SPARE: usize = 251;

pub const RECORD_SIZE: usize = 256;

// Sixteen records are an account's part, eight parts the table.
pub const PLACES: usize = 16;

pub const PART_SIZE: usize = RECORD_SIZE * PLACES;

pub const ACCOUNTS: usize = 8;

pub const TABLE_SIZE: usize = PART_SIZE * ACCOUNTS;
