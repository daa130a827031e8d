// AES-256 (FIPS 197) as definitions, and the theorem that InvCipher() undoes Cipher(). There is no code here.
#![tactic(auto)]
