// What is shown of the standard's cipher and key expansion as a whole.
ghost use Rattle.standard.specs.Examples.{ExamplesStand};
ghost use Rattle.standard.specs.Undoing.{InvCipherUndoesCipher, CipherUndoesInvCipher, DecryptedUndoesEncrypted, EncryptedUndoesDecrypted, CiphersGiveStates, WordsExpand, RoundKeysAreBytes};

// Under any round keys and for any number of rounds.
pub fn ciphers_undo_each_other()
    ensures back { InvCipherUndoesCipher }
    ensures forth { CipherUndoesInvCipher }
{}

// Under the round keys of any key.
pub fn blocks_come_back()
    ensures back { DecryptedUndoesEncrypted }
    ensures forth { EncryptedUndoesDecrypted }
{}

pub fn ciphers_give_states()
    ensures { CiphersGiveStates }
{}

// The words of the key expansion meet the standard's equations, and are bytes.
pub fn expansion_stands()
    ensures words { WordsExpand }
    ensures bytes { RoundKeysAreBytes }
{}

// The definitions give the standard's own examples.
pub fn examples_stand()
    ensures { ExamplesStand }
{}
