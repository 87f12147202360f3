//! The numbers of the named equations of the OSeMOSYS long code.

/// The number of EQ_SpecifiedDemand.
pub const EQ_SPECIFIED_DEMAND: u8 = 1;

/// The number of CAa1.
pub const CAA1: u8 = 2;

/// The number of CAa2.
pub const CAA2: u8 = 3;

/// The number of CAa3.
pub const CAA3: u8 = 4;

/// The number of CAa4.
pub const CAA4: u8 = 5;

/// The number of CAb1.
pub const CAB1: u8 = 6;

/// The number of EBa1.
pub const EBA1: u8 = 7;

/// The number of EBa2.
pub const EBA2: u8 = 8;

/// The number of EBa3.
pub const EBA3: u8 = 9;

/// The number of EBa4.
pub const EBA4: u8 = 10;

/// The number of EBa5.
pub const EBA5: u8 = 11;

/// The number of EBa6.
pub const EBA6: u8 = 12;

/// The number of EBa7.
pub const EBA7: u8 = 13;

/// The number of EBa8.
pub const EBA8: u8 = 14;

/// The number of EBa9.
pub const EBA9: u8 = 15;

/// The number of EBa10.
pub const EBA10: u8 = 16;

/// The number of EBa11.
pub const EBA11: u8 = 17;

/// The number of EBb1.
pub const EBB1: u8 = 18;

/// The number of EBb2.
pub const EBB2: u8 = 19;

/// The number of EBb3.
pub const EBB3: u8 = 20;

/// The number of EBb4.
pub const EBB4: u8 = 21;

/// The number of Acc1.
pub const ACC1: u8 = 22;

/// The number of Acc2.
pub const ACC2: u8 = 23;

/// The number of Acc3.
pub const ACC3: u8 = 24;

/// The number of CC1.
pub const CC1: u8 = 25;

/// The number of CC2.
pub const CC2: u8 = 26;

/// The number of SV1.
pub const SV1: u8 = 27;

/// The number of SV2.
pub const SV2: u8 = 28;

/// The number of SV3.
pub const SV3: u8 = 29;

/// The number of SV4.
pub const SV4: u8 = 30;

/// The number of OC1.
pub const OC1: u8 = 31;

/// The number of OC2.
pub const OC2: u8 = 32;

/// The number of OC3.
pub const OC3: u8 = 33;

/// The number of OC4.
pub const OC4: u8 = 34;

/// The number of E1.
pub const E1: u8 = 35;

/// The number of E2.
pub const E2: u8 = 36;

/// The number of E3.
pub const E3: u8 = 37;

/// The number of E4.
pub const E4: u8 = 38;

/// The number of E5.
pub const E5: u8 = 39;

/// The number of TDC1.
pub const TDC1: u8 = 40;

/// The number of TDC2.
pub const TDC2: u8 = 41;

/// The number of Acc4.
pub const ACC4: u8 = 42;

/// The number of TCC1.
pub const TCC1: u8 = 43;

/// The number of TCC2.
pub const TCC2: u8 = 44;

/// The number of NCC1.
pub const NCC1: u8 = 45;

/// The number of NCC2.
pub const NCC2: u8 = 46;

/// The number of AAC1.
pub const AAC1: u8 = 47;

/// The number of AAC2.
pub const AAC2: u8 = 48;

/// The number of AAC3.
pub const AAC3: u8 = 49;

/// The number of TAC1.
pub const TAC1: u8 = 50;

/// The number of TAC2.
pub const TAC2: u8 = 51;

/// The number of TAC3.
pub const TAC3: u8 = 52;

/// The number of RM1.
pub const RM1: u8 = 53;

/// The number of RM2.
pub const RM2: u8 = 54;

/// The number of RM3.
pub const RM3: u8 = 55;

/// The number of RE1.
pub const RE1: u8 = 56;

/// The number of RE2.
pub const RE2: u8 = 57;

/// The number of RE3.
pub const RE3: u8 = 58;

/// The number of RE4.
pub const RE4: u8 = 59;

/// The number of RE5.
pub const RE5: u8 = 60;

/// The number of E6.
pub const E6: u8 = 61;

/// The number of E7.
pub const E7: u8 = 62;

/// The number of E8.
pub const E8: u8 = 63;

/// The number of E9.
pub const E9: u8 = 64;

/// How many named equations there are.
pub const EQUATION_COUNT: usize = 64;
